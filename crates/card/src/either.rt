// The block run and a lane's for C, in one: what both exports call is compiled once, with all that it calls.
ghost use Rattle.std.specs.Prelude.{length};
ghost use Rattle.limits.specs.Refusals.{answer_of};
ghost use Rattle.render.specs.Slices.{lent_lists};
ghost use Rattle.share.specs.Share.{buffers};
ghost use Rattle.block.specs.Call.{called};
ghost use Rattle.block.specs.Numbers.{settings_of, range_of};
ghost use Rattle.lane_run.specs.Either.{EitherMeets};

use block::{CallNumbers, LentSlices, read_lengths, run_lanes, settings_of, write_lengths};
use lane_run::{check_either, interval_of};
use limits::Refusal;
use shaper::Range;

// Where a lane is given that lane's run, else the block run; an accepted call's frames. Coefficients and sine and
// arctangent numbers come on slices, which are read once they are known to be long enough. Why the six slices that are
// written are no struct is told at share's `run_lane`.
pub fn run_either(
    lane: Option<u32>,
    call: CallNumbers,
    character0: f32,
    character1: f32,
    coefs: &[f32],
    numbers: &[f32],
    lent: &LentSlices<'_>,
    output: &mut [f32],
    work: &mut [f32],
    pairs: &mut [f32],
    fm: &mut [f32],
    last: &mut [f32],
    dec: &mut [f32],
) -> Result<u32, Refusal>
    ensures { EitherMeets lane (called
        (settings_of call.mode0 call.mode1 character0 character1 call.factor call.lanes call.frames call.rate
        call.count0 call.count1 call.count2 coefs.now numbers.now)
        (range_of call.first call.count) call.active (length coefs.now) (length numbers.now) (lent_lists lent.now)
        (buffers output.old work.old pairs.old fm.old last.old dec.old)
        (buffers output.new work.new pairs.new fm.new last.new dec.new) (answer_of result)) }
{
    check_either(
        lane,
        call,
        read_lengths(lent, coefs.len(), numbers.len()),
        write_lengths(output, work, pairs, fm, last, dec),
    )?;
    let b = settings_of(call, character0, character1, coefs, numbers);
    let r = Range {
        first: call.first,
        count: call.count,
    };
    let asked = interval_of(lane, call.active);
    run_lanes(
        b, r, asked.from, asked.to, lent, output, work, pairs, fm, last, dec,
    );
    Ok(call.count)
}
