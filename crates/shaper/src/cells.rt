// A lane's state in its cells: the filter pairs in rows 0 to 3, the FM carry in rows 0 and 1, `last` in
// row 0.
ghost use Rattle.std.specs.Prelude.{◌≡◌, ◌+◌, ◌<◌, ◌≤◌, length};
ghost use Rattle.std.specs.Float.{nan};
ghost use Rattle.grid.specs.Functions.{upd};
ghost use Rattle.grid.specs.Cells.{col, columns};
ghost use Rattle.grid.specs.Lanes.{Each};
ghost use Rattle.limits.specs.Lengths.{pairs_length, carry_length, last_length};
ghost use Rattle.shaper.specs.Lane.{pair_in, put_pairs, put_carry};

use grid::Lane;
use wave::Svf;

// The filter pair in rows `row` and `row` + 1.
#[tactic(auto, unfolding(grid::specs::Cells::col))]
pub fn load_pair(pairs: &[f32], row: usize, lane: Lane) -> Svf
    requires row_inside { row < 3 }
    requires held { pairs_length lane.lanes ≤ length pairs.now }
    ensures { result ≡ pair_in row (col nan lane.lanes lane.index pairs.now) }
{
    Svf {
        ic1: pairs[lane.place(row)],
        ic2: pairs[lane.place(row + 1)],
    }
}

pub fn store_pairs(pairs: &mut [f32], lane: Lane, pairs0: Svf, pairs1: Svf)
    requires { pairs_length lane.lanes ≤ length pairs.old }
    ensures { Each lane.lanes lane.index (lane.index + 1) (λ _. put_pairs pairs0 pairs1)
        (columns nan lane.lanes pairs.old) (columns nan lane.lanes pairs.new) }
{
    pairs[lane.place(0)] = pairs0.ic1;
    pairs[lane.place(1)] = pairs0.ic2;
    pairs[lane.place(2)] = pairs1.ic1;
    pairs[lane.place(3)] = pairs1.ic2;
}

pub fn store_carry(fm: &mut [f32], lane: Lane, fm0: f32, fm1: f32)
    requires { carry_length lane.lanes ≤ length fm.old }
    ensures { Each lane.lanes lane.index (lane.index + 1) (λ _. put_carry fm0 fm1)
        (columns nan lane.lanes fm.old) (columns nan lane.lanes fm.new) }
{
    fm[lane.place(0)] = fm0;
    fm[lane.place(1)] = fm1;
}

pub fn store_last(last: &mut [f32], lane: Lane, value: f32)
    requires { last_length lane.lanes ≤ length last.old }
    ensures { Each lane.lanes lane.index (lane.index + 1) (λ _ f. upd f 0 value)
        (columns nan lane.lanes last.old) (columns nan lane.lanes last.new) }
{
    last[lane.place(0)] = value;
}
