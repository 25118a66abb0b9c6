// The run of any range of a block.
ghost use Rattle.std.specs.Prelude.{◌≤◌};
ghost use Rattle.limits.specs.Lengths.{coefs_length, numbers_length};
ghost use Rattle.limits.specs.Refusals.{answer_of};
ghost use Rattle.render.specs.Slices.{lent_lists};
ghost use Rattle.share.specs.Share.{buffers};
ghost use Rattle.share.specs.Promises.{Shared};
ghost use Rattle.block.specs.Call.{called, Taken, Meets};

use crate::refusal::{call_numbers, check, read_lengths, write_lengths};
use limits::{COEFS_LENGTH, NUMBERS_LENGTH, Refusal};
use render::{BlockSettings, LaneRange, LentSlices};
use shaper::Range;
use share::run_lane;

// The lanes of an accepted call, a run's or a lane's: from ≤ lane < to, one after another. No lane looks at
// another's numbers. Why the six slices that are written are no struct, here and in `block_run`, is told at
// share's `run_lane`.
pub fn run_lanes(
    b: BlockSettings,
    r: Range,
    from: u32,
    to: u32,
    lent: &LentSlices<'_>,
    output: &mut [f32],
    work: &mut [f32],
    pairs: &mut [f32],
    fm: &mut [f32],
    last: &mut [f32],
    dec: &mut [f32],
)
    requires ordered { from ≤ to }
    requires taken { Taken b r to (lent_lists lent.now) (buffers output.old work.old pairs.old fm.old last.old dec.old) }
    ensures { Shared b r (lent_lists lent.now) from to
        (buffers output.old work.old pairs.old fm.old last.old dec.old)
        (buffers output.new work.new pairs.new fm.new last.new dec.new) }
{
    // Taken apart before the lanes, so that what goes by the settings alone is worked out once.
    let BlockSettings {
        shaper,
        rate,
        designs,
    } = b;
    // A lane is its number: its cells are no part of a slice to go through.
    for lane in from as usize..to as usize {
        let part = LaneRange {
            shaper,
            rate,
            designs: &designs,
            range: r,
            lane,
        };
        run_lane(part, lent, output, work, pairs, fm, last, dec);
    }
}

// Renders host frames `r` of the block for lanes 0 to `active` - 1, at the host rate times the factor,
// and decimates them to the range's output rows. An accepted call's frames.
pub fn block_run(
    b: BlockSettings,
    r: Range,
    active: u32,
    lent: &LentSlices<'_>,
    output: &mut [f32],
    work: &mut [f32],
    pairs: &mut [f32],
    fm: &mut [f32],
    last: &mut [f32],
    dec: &mut [f32],
) -> Result<u32, Refusal>
    ensures { Meets (called b r active coefs_length numbers_length (lent_lists lent.now)
        (buffers output.old work.old pairs.old fm.old last.old dec.old)
        (buffers output.new work.new pairs.new fm.new last.new dec.new) (answer_of result)) }
{
    check(
        call_numbers(b, r, active),
        read_lengths(lent, COEFS_LENGTH, NUMBERS_LENGTH),
        write_lengths(output, work, pairs, fm, last, dec),
    )?;
    run_lanes(b, r, 0, active, lent, output, work, pairs, fm, last, dec);
    Ok(r.count)
}
