// A lane's filter pairs, FM carry and `last` in its cells.
ghost use Rattle.std.specs.Prelude.{◌≡◌, ◌≤◌, length};
ghost use Rattle.std.specs.Float.{nan};
ghost use Rattle.grid.specs.Cells.{col};
ghost use Rattle.render.specs.Lane.{voice_of};
ghost use Rattle.share.specs.Promises.{StateHeld, Stored};

use grid::Lane;
use render::Voice;
use shaper::{load_pair, store_carry, store_last, store_pairs};

// A lane's state from its cells.
pub fn load_voice(lane: Lane, pairs: &[f32], fm: &[f32], last: &[f32]) -> Voice
    requires { StateHeld lane.lanes (length pairs.now) (length fm.now) (length last.now) }
    ensures { result ≡ voice_of (col nan lane.lanes lane.index pairs.now)
        (col nan lane.lanes lane.index fm.now) (col nan lane.lanes lane.index last.now) }
{
    let first = lane.place(0);
    Voice {
        pairs0: load_pair(pairs, 0, lane),
        pairs1: load_pair(pairs, 2, lane),
        fm0: fm[first],
        fm1: fm[lane.place(1)],
        last: last[first],
    }
}

// And back into them.
pub fn store_voice(lane: Lane, v: Voice, pairs: &mut [f32], fm: &mut [f32], last: &mut [f32])
    requires { StateHeld lane.lanes (length pairs.old) (length fm.old) (length last.old) }
    ensures { Stored lane.lanes lane.index v pairs.old fm.old last.old pairs.new fm.new last.new }
{
    store_pairs(pairs, lane, v.pairs0, v.pairs1);
    store_carry(fm, lane, v.fm0, v.fm1);
    store_last(last, lane, v.last);
}
