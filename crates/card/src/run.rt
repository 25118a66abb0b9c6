// The block run. The parameters are C's, one by one.
ghost use Rattle.std.specs.Prelude.{length};
ghost use Rattle.render.specs.Promises.{lent};
ghost use Rattle.share.specs.Share.{buffers};
ghost use Rattle.block.specs.Call.{called, Meets};
ghost use Rattle.block.specs.Numbers.{settings_of, range_of};

use crate::either::run_either;
use block::{CallNumbers, LentSlices, Rows};
use controls::ControlSlices;
use limits::Answer;

// `block::block_run` with coefficients and sine and arctangent numbers on slices.
#[unsafe(no_mangle)]
pub extern "C" fn shaper_block_run(
    mode0: u32,
    mode1: u32,
    character0: f32,
    character1: f32,
    factor: u32,
    lanes: u32,
    active: u32,
    frames: u32,
    first: u32,
    count: u32,
    rate: u32,
    count0: u32,
    count1: u32,
    count2: u32,
    coefs: &[f32],
    numbers: &[f32],
    base0: &[f32],
    base1: &[f32],
    mod0: &[f32],
    mod1: &[f32],
    source0: &[f32],
    source1: &[f32],
    curve: &[f32],
    cycle: &[f32],
    words: &[u32],
    steps: &[u32],
    inner: &[f32],
    output: &mut [f32],
    work: &mut [f32],
    pairs: &mut [f32],
    fm: &mut [f32],
    last: &mut [f32],
    dec: &mut [f32],
) -> Answer
    ensures { Meets (called
        (settings_of mode0 mode1 character0 character1 factor lanes frames rate count0 count1 count2 coefs.now numbers.now)
        (range_of first count) active (length coefs.now) (length numbers.now)
        (lent base0.now base1.now mod0.now mod1.now source0.now source1.now curve.now cycle.now words.now steps.now inner.now)
        (buffers output.old work.old pairs.old fm.old last.old dec.old)
        (buffers output.new work.new pairs.new fm.new last.new dec.new) result) }
{
    let lent = LentSlices {
        rows: Rows {
            controls: ControlSlices {
                base0,
                base1,
                mod0,
                mod1,
                source0,
                source1,
            },
            words,
            steps,
            inner,
        },
        curve,
        cycle,
    };
    let call = CallNumbers {
        mode0,
        mode1,
        factor,
        lanes,
        active,
        frames,
        first,
        count,
        rate,
        count0,
        count1,
        count2,
    };
    let asked = None;
    Answer::from(run_either(
        asked, call, character0, character1, coefs, numbers, &lent, output, work, pairs, fm, last,
        dec,
    ))
}
