// The rendered frames of a range of one lane.
ghost use Rattle.std.specs.Prelude.{◌≡◌, ◌≤◌, length};
ghost use Rattle.limits.specs.Lengths.{rendered_length};
ghost use Rattle.render.specs.Lane.{inputs_in, first_frame, frame_count};
ghost use Rattle.render.specs.Promises.{Readable};
ghost use Rattle.render.specs.Slices.{accepted_lists, block_of};
ghost use Rattle.render.specs.Frames.{Stills, Frames};

use crate::drives::still_drive;
use crate::host::render_host;
use crate::lent::AcceptedSlices;
use crate::plain::{is_plain, read_lane};
use crate::state::{Drive, LaneRange, Voice};
use grid::Lane;
use voice::fm_scale;

// The rendered frames of the range's host frames, into the work rows from the first on; the lane's state after them.
// What the still drives are is asked here and in host.rt: it goes by the settings and the rows, which no struct of
// drives has.
fn render_hosts(
    part: LaneRange<'_>,
    still0: Drive,
    still1: Drive,
    v: Voice,
    lent: AcceptedSlices<'_>,
    work: &mut [f32],
) -> Voice
    requires stills { Stills part.shaper part.lane lent.rows.controls.base0.now lent.rows.controls.base1.now still0 still1 }
    requires readable { Readable part.shaper (accepted_lists lent) }
    requires writable { rendered_length part.range.count part.shaper.factor part.shaper.lanes ≤ length work.old }
    ensures { Frames (block_of part.entry)
        (inputs_in part.entry.shaper (accepted_lists lent.entry) part.entry.lane)
        part.entry.lane (first_frame (block_of part.entry) part.entry.range) 0 (frame_count (block_of part.entry) part.entry.range) v result work.old work.new }
{
    let s = part.shaper;
    let lane = part.lane;
    let factor = s.factor as usize;
    let first = part.range.first as usize;
    let count = part.range.count as usize;
    let scale = fm_scale(part.rate, s.factor);
    let mut state = v;
    // Over a range: the counter is the host frame's number, which the frame is told, and no place in a slice.
    for k in 0..count {
        state = render_host(
            s,
            scale,
            lane,
            first + k,
            k * factor,
            still0,
            still1,
            state,
            lent,
            work,
        );
    }
    state
}

// The rendered frames of the range, into the work rows from the first on; the lane's state after them.
pub fn render_lane(
    part: LaneRange<'_>,
    v: Voice,
    lent: AcceptedSlices<'_>,
    work: &mut [f32],
) -> Voice
    requires readable { Readable part.shaper (accepted_lists lent) }
    requires writable { rendered_length part.range.count part.shaper.factor part.shaper.lanes ≤ length work.old }
    ensures { Frames (block_of part.entry)
        (inputs_in part.entry.shaper (accepted_lists lent.entry) part.entry.lane)
        part.entry.lane (first_frame (block_of part.entry) part.entry.range) 0 (frame_count (block_of part.entry) part.entry.range) v result work.old work.new }
{
    let s = part.shaper;
    let lane = part.lane;
    let mode0 = s.slot0.mode;
    let mode1 = s.slot1.mode;
    if is_plain(mode0, mode1) {
        let at = Lane {
            lanes: s.lanes as usize,
            index: lane,
        };
        let factor = s.factor as usize;
        let first = part.range.first as usize;
        let count = part.range.count as usize;
        read_lane(
            first * factor,
            count * factor,
            at,
            lent.cycle,
            lent.rows.words,
            work,
        );
        return v;
    }
    let still0 = still_drive(mode0, lent.rows.controls.base0[lane]);
    let still1 = still_drive(mode1, lent.rows.controls.base1[lane]);
    render_hosts(part, still0, still1, v, lent, work)
}
