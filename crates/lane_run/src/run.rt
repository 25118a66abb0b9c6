// The run of one lane.
ghost use Rattle.limits.specs.Lengths.{coefs_length, numbers_length};
ghost use Rattle.limits.specs.Refusals.{answer_of};
ghost use Rattle.render.specs.Slices.{lent_lists};
ghost use Rattle.share.specs.Share.{buffers};
ghost use Rattle.block.specs.Call.{called};
ghost use Rattle.lane_run.specs.LaneCall.{LaneMeets};

use crate::refusal::check_either;
use block::{call_numbers, read_lengths, run_lanes, write_lengths};
use limits::{COEFS_LENGTH, NUMBERS_LENGTH, Refusal};
use render::{BlockSettings, LentSlices};
use shaper::Range;

// `block::block_run` of lane `lane` alone: no other lane's cell is touched. It stays beside the run, from which
// tools/lane_sources makes it, since each promises something else; where both are called by C, crate card has one for
// both, `run_either`. Why the six slices that are written are no struct is told at share's `run_lane`.
pub fn lane_run(
    b: BlockSettings,
    r: Range,
    active: u32,
    lane: u32,
    lent: &LentSlices<'_>,
    output: &mut [f32],
    work: &mut [f32],
    pairs: &mut [f32],
    fm: &mut [f32],
    last: &mut [f32],
    dec: &mut [f32],
) -> Result<u32, Refusal>
    ensures { LaneMeets (called b r active coefs_length numbers_length (lent_lists lent.now)
        (buffers output.old work.old pairs.old fm.old last.old dec.old)
        (buffers output.new work.new pairs.new fm.new last.new dec.new) (answer_of result)) lane }
{
    check_either(
        Some(lane),
        call_numbers(b, r, active),
        read_lengths(lent, COEFS_LENGTH, NUMBERS_LENGTH),
        write_lengths(output, work, pairs, fm, last, dec),
    )?;
    run_lanes(
        b,
        r,
        lane,
        lane + 1,
        lent,
        output,
        work,
        pairs,
        fm,
        last,
        dec,
    );
    Ok(r.count)
}
