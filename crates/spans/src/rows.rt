// A lane's numbers in some rows of a lent buffer. The three folds stay apart: one over a closure would have a
// contract that speaks of each of its calls, and each fold's own definition beside it.
ghost use Rattle.std.specs.Prelude.{◌≡◌, ◌+◌, ◌*◌, ◌<◌, ◌≤◌, length};
ghost use Rattle.std.specs.Float.{nan};
ghost use Rattle.grid.specs.Cells.{column};
ghost use Rattle.spans.specs.Slopes.{bounds_to, swing_to};
ghost use Rattle.spans.specs.Asked.{most_to};

use crate::slopes::{Bounds, Swing};
use grid::Lane;
use lanes::max;

// `count` of a buffer's `all` rows, from `from` on.
#[derive(Clone, Copy)]
pub struct LaneRows {
    pub lane: Lane,
    pub all: usize,
    pub from: usize,
    pub count: usize,
    ghost few: { all ≤ 4096 },
    ghost first: { from < all },
    ghost last: { from + count ≤ all },
}

impl LaneRows {
    // The bounds of a base with its modulation.
    #[tactic(auto, unfolding(crate::specs::Slopes::bounds_to), using(crate::proofs::ColumnLaws::row_read))]
    pub(crate) fn bounds(self, base: f32, modulation: &[f32]) -> Bounds
        requires { self.all * self.lane.lanes ≤ length modulation.now }
        ensures { result ≡ bounds_to base (column nan self.lane.lanes self.lane.index self.all modulation.now) self.from self.count }
    {
        let mut bounds = Bounds {
            low: f32::INFINITY,
            high: f32::NEG_INFINITY,
        };
        // By places: a lane's numbers lie `lanes` apart. An iterator that skips to the first row, steps over the other
        // lanes and ends with the last row is no plainer.
        for i in 0..self.count {
            bounds = bounds.widened(base + modulation[self.lane.place(self.from + i)]);
        }
        bounds
    }

    // A source's peak and steepest step.
    #[tactic(auto, unfolding(crate::specs::Slopes::swing_to), using(crate::proofs::ColumnLaws::row_read))]
    pub fn swing(self, source: &[f32]) -> Swing
        requires { self.all * self.lane.lanes ≤ length source.now }
        ensures { result ≡ swing_to (column nan self.lane.lanes self.lane.index self.all source.now) self.from self.count }
    {
        let mut swing = Swing {
            peak: 0.0,
            step: 0.0,
            last: source[self.lane.place(self.from)],
        };
        // By places, as in `bounds`.
        for i in 0..self.count {
            swing = swing.on(source[self.lane.place(self.from + i)]);
        }
        swing
    }

    // The largest, at least `start`; a NaN is passed over.
    #[tactic(auto, unfolding(crate::specs::Asked::most_to), using(crate::proofs::ColumnLaws::row_read))]
    pub(crate) fn most(self, start: f32, xs: &[f32]) -> f32
        requires { self.all * self.lane.lanes ≤ length xs.now }
        ensures { result ≡ most_to start (column nan self.lane.lanes self.lane.index self.all xs.now) self.from self.count }
    {
        let mut most = start;
        // By places, as in `bounds`.
        for i in 0..self.count {
            most = max(most, xs[self.lane.place(self.from + i)]);
        }
        most
    }
}
