// The calls about a single lane at a single rendered frame. C gives a call's numbers and its buffers one by one, so the
// exports' parameters are no structs.
ghost use Rattle.std.specs.Prelude.{◌≡◌};
ghost use Rattle.voice.specs.PhaseRun.{fm_exponential};
ghost use Rattle.controls.specs.Controls.{control_buffers};
ghost use Rattle.shaper.specs.ReadsCall.{ReadsCall};
ghost use Rattle.shaper.specs.SampleCall.{SampleCall};
ghost use Rattle.probe.specs.Singles.{settings, range};

use controls::ControlSlices;
use lanes::Numbers;
use limits::Valued;
use phase::Slot;
use shaper::{Range, ReadsAnswer, Settings, SingleCall};

#[unsafe(no_mangle)]
pub extern "C" fn probe_fm_exponential(s: f32) -> f32
    ensures { result ≡ fm_exponential s }
{
    voice::fm_exponential(s)
}

// Of C's numbers, for both exports.
fn settings(
    mode0: u32,
    mode1: u32,
    character0: f32,
    character1: f32,
    factor: u32,
    lanes: u32,
    frames: u32,
    numbers: Numbers,
) -> Settings
    ensures { result ≡ settings mode0 mode1 character0 character1 factor lanes frames numbers }
{
    Settings {
        slot0: Slot {
            mode: mode0,
            character: character0,
        },
        slot1: Slot {
            mode: mode1,
            character: character1,
        },
        factor,
        lanes,
        frames,
        numbers,
    }
}

#[unsafe(no_mangle)]
pub extern "C" fn probe_reads_lane(
    mode0: u32,
    mode1: u32,
    character0: f32,
    character1: f32,
    factor: u32,
    lanes: u32,
    active: u32,
    lane: u32,
    frames: u32,
    first: u32,
    count: u32,
    frame: u32,
    rate: u32,
    word: u32,
    step: u32,
    numbers: Numbers,
    base0: &[f32],
    base1: &[f32],
    mod0: &[f32],
    mod1: &[f32],
    source0: &[f32],
    source1: &[f32],
    curve: &[f32],
    inner: &[f32],
    fm: &mut [f32],
    last: &[f32],
) -> ReadsAnswer
    ensures { ReadsCall (settings mode0 mode1 character0 character1 factor lanes frames numbers) rate active lane (range first count) frame word step
        (control_buffers base0.now base1.now mod0.now mod1.now source0.now source1.now)
        curve.now inner.now fm.old fm.new last.now result }
{
    let s = settings(
        mode0, mode1, character0, character1, factor, lanes, frames, numbers,
    );
    let controls = ControlSlices {
        base0,
        base1,
        mod0,
        mod1,
        source0,
        source1,
    };
    let call = SingleCall {
        settings: s,
        active,
        lane,
        range: Range { first, count },
        frame,
    };
    ReadsAnswer::from(shaper::reads_lane(call, rate, word, step, &controls, curve, inner, fm, last))
}

#[unsafe(no_mangle)]
pub extern "C" fn probe_shape_at_lane(
    mode0: u32,
    mode1: u32,
    character0: f32,
    character1: f32,
    factor: u32,
    lanes: u32,
    active: u32,
    lane: u32,
    frames: u32,
    first: u32,
    count: u32,
    frame: u32,
    step: u32,
    x: f32,
    numbers: Numbers,
    base0: &[f32],
    base1: &[f32],
    mod0: &[f32],
    mod1: &[f32],
    source0: &[f32],
    source1: &[f32],
    pairs: &mut [f32],
    last: &mut [f32],
) -> Valued
    ensures { SampleCall (settings mode0 mode1 character0 character1 factor lanes frames numbers) active lane (range first count) frame step x
        (control_buffers base0.now base1.now mod0.now mod1.now source0.now source1.now)
        pairs.old last.old pairs.new last.new result }
{
    let s = settings(
        mode0, mode1, character0, character1, factor, lanes, frames, numbers,
    );
    let controls = ControlSlices {
        base0,
        base1,
        mod0,
        mod1,
        source0,
        source1,
    };
    let call = SingleCall {
        settings: s,
        active,
        lane,
        range: Range { first, count },
        frame,
    };
    Valued::from(shaper::shape_at_lane(call, step, x, &controls, pairs, last))
}
