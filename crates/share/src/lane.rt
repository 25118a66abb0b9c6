// One lane's whole share of a range.
ghost use Rattle.std.specs.Prelude.{◌≡◌, ◌+◌, length};
ghost use Rattle.std.specs.Float.{nan};
ghost use Rattle.grid.specs.Functions.{span};
ghost use Rattle.grid.specs.Cells.{col, columns};
ghost use Rattle.grid.specs.Lanes.{Each};
ghost use Rattle.render.specs.Promises.{Readable};
ghost use Rattle.render.specs.Slices.{lent_lists, block_of};
ghost use Rattle.share.specs.Share.{buffers};
ghost use Rattle.share.specs.Promises.{Writable, Copied, Shared};

use crate::cells::{load_voice, store_voice};
use curve::Curve;
use grid::Lane;
use halfband::{decimate_lane, stages_of};
use limits::{CURVE_LENGTH, CYCLE_LENGTH};
use reads::Cycle;
use render::{AcceptedSlices, LaneRange, LentSlices, render_lane};

// The lane's first `count` work rows to the output rows from `first` on.
fn copy_lane(first: usize, count: usize, lane: Lane, work: &[f32], output: &mut [f32])
    requires { Copied first count lane.lanes (length work.now) (length output.old) }
    ensures { Each lane.lanes lane.index (lane.index + 1) (λ l. span first count (col nan lane.lanes l work.now))
        (columns nan lane.lanes output.old) (columns nan lane.lanes output.new) }
{
    // By places: a lane's cells are `lanes` apart in both, and of what is written through a stepped `iter_mut` a proof
    // knows nothing.
    for k in 0..count {
        output[lane.place(first + k)] = work[lane.place(k)];
    }
}

// The lane's samples into the work rows, their decimation, the copy to the range's output rows; its
// state is carried on. The six slices that are written stay parameters, here and above: out of a struct, what
// they end as at an edge to C is told by names of the check's own alone.
pub fn run_lane(
    part: LaneRange<'_>,
    lent: &LentSlices<'_>,
    output: &mut [f32],
    work: &mut [f32],
    pairs: &mut [f32],
    fm: &mut [f32],
    last: &mut [f32],
    dec: &mut [f32],
)
    requires readable { Readable part.shaper (lent_lists lent.now) }
    requires writable { Writable part.shaper part.range (buffers output.old work.old pairs.old fm.old last.old dec.old) }
    ensures { Shared (block_of part.entry) part.entry.range (lent_lists lent.now) part.entry.lane (part.entry.lane + 1)
        (buffers output.old work.old pairs.old fm.old last.old dec.old)
        (buffers output.new work.new pairs.new fm.new last.new dec.new) }
{
    let s = part.shaper;
    let at = Lane {
        lanes: s.lanes as usize,
        index: part.lane,
    };
    let first = part.range.first as usize;
    let count = part.range.count as usize;
    // The tables in just the entries that are asked for: past them nothing is read.
    let accepted = AcceptedSlices {
        rows: lent.rows,
        curve: Curve {
            values: &lent.curve[..CURVE_LENGTH],
        },
        cycle: Cycle {
            samples: &lent.cycle[..CYCLE_LENGTH],
        },
    };
    let v = load_voice(at, pairs, fm, last);
    let end = render_lane(part, v, accepted, work);
    store_voice(at, end, pairs, fm, last);
    decimate_lane(part.designs, stages_of(s.factor), count, at, work, dec);
    copy_lane(first, count, at, work, output);
}
