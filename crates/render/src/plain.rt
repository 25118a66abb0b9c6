// A lane that no slot shapes: each rendered frame is the cycle read at the running word, and the state
// stays.
ghost use Rattle.std.specs.Prelude.{◌≡◌, ◌+◌, length};
ghost use Rattle.std.specs.Float.{nan};
ghost use Rattle.grid.specs.Functions.{span};
ghost use Rattle.grid.specs.Cells.{columns};
ghost use Rattle.grid.specs.Lanes.{Each};
ghost use Rattle.render.specs.Plain.{is_plain, cycle_read, Unshaped};

use grid::Lane;
use reads::Cycle;
use voice::in_phase;
use wave::in_wave;

// Whether no slot is in a stage.
#[tactic(auto, unfolding(crate::specs::Plain::is_plain))]
pub fn is_plain(mode0: u32, mode1: u32) -> bool
    ensures { result ≡ is_plain mode0 mode1 }
{
    !(in_phase(mode0) | in_phase(mode1)) & !(in_wave(mode0) | in_wave(mode1))
}

// The cycle at the lane's words of the `count` rendered frames from `from` on, into the work rows from
// the first on.
pub fn read_lane(
    from: usize,
    count: usize,
    lane: Lane,
    cycle: Cycle<'_>,
    words: &[u32],
    work: &mut [f32],
)
    requires { Unshaped from count lane.lanes (length words.now) (length work.old) }
    ensures { Each lane.lanes lane.index (lane.index + 1) (λ l. span 0 count (cycle_read from lane.lanes l cycle.entry.samples.now words.now))
        (columns nan lane.lanes work.old) (columns nan lane.lanes work.new) }
{
    // By places: a lane's cells are `lanes` apart in both, and of what is written through a stepped `iter_mut` a proof
    // knows nothing.
    for k in 0..count {
        let word = words[lane.place(from + k)];
        work[lane.place(k)] = cycle.read(word);
    }
}
