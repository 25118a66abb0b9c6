// The layout of every lent buffer: rows of n numbers, one for each lane.
#![tactic(auto)]

ghost use Rattle.std.specs.Prelude.{◌≡◌, ◌+◌, ◌*◌, ◌<◌, ◌≤◌};

// One of the lanes, of which a row has up to 64.
#[derive(Clone, Copy)]
pub struct Lane {
    pub lanes: usize,
    pub index: usize,
    ghost few: { lanes ≤ 64 },
    ghost inside: { index < lanes },
}

impl Lane {
    // Where its number in a row lies. The bounds rule out that the product wraps, here and once.
    #[tactic(auto, using(crate::proofs::Index::small_place))]
    pub fn place(self, row: usize) -> usize
        requires { row < 65536 }
        ensures { result ≡ row * self.lanes + self.index }
    {
        row * self.lanes + self.index
    }
}

// The same of lane `lane` of `n`.
pub fn place(row: usize, n: usize, lane: usize) -> usize
    requires { (row < 65536) × (lane < n) × (n ≤ 64) }
    ensures { result ≡ row * n + lane }
{
    Lane {
        lanes: n,
        index: lane,
    }
    .place(row)
}
