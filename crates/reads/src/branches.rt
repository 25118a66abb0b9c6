// What a map makes of one read: one read more, or two. It is small and of single words, so that it
// goes from a map to the list in registers.
ghost use Rattle.std.specs.Prelude.{◌≡◌};
ghost use Rattle.reads.specs.Reads.{a_first};
ghost use Rattle.reads.specs.Branches.{kind_of, Makes, pushed, pushed_weighted, pushed_both, pushed_pair};

use lanes::{above, any, pick, pick_word};

// How many of two reads there are, and whether their gains count.
#[derive(Clone, Copy, Debug, PartialEq, Eq)]
pub enum BranchKind {
    // The first, with no gain of its own.
    One,
    // The first, weighted.
    Weighted,
    // Both, weighted.
    Both,
}

// A read of the cycle at a phase word, and its gain.
#[derive(Clone, Copy)]
pub struct Read {
    pub word: u32,
    pub gain: f32,
}

#[derive(Clone, Copy)]
pub struct Branches {
    pub first: Read,
    pub second: Read,
    pub kind: BranchKind,
}

// Whether a pair's first branch, `a` weighted `wa`, comes before `b`: 1 or 0, a mask for `pick`.
#[tactic(auto, unfolding(crate::specs::Reads::a_first))]
fn a_first(wa: f32) -> f32
    ensures { result ≡ a_first wa }
{
    above(wa - 0.5)
}

// A pair's kind: of two where the second has any weight.
#[tactic(auto, unfolding(crate::specs::Branches::kind_of), using(floats::specs::Steps::by_taken, floats::specs::Steps::by_left))]
fn kind_of(weight: f32) -> BranchKind
    ensures { result ≡ kind_of weight }
{
    if any(weight) {
        BranchKind::Both
    } else {
        BranchKind::Weighted
    }
}

impl Branches {
    // One read, with the gain that it came with. It and the next are two: one with the kind beside the read would take
    // `Both` too.
    #[tactic(auto, unfolding(crate::specs::Branches::appended, crate::specs::Branches::appended_as))]
    pub fn one(read: Read) -> Branches
        ensures { Makes result (pushed read) }
    {
        Branches {
            first: read,
            second: read,
            kind: BranchKind::One,
        }
    }

    // One read whose gain counts.
    #[tactic(auto, unfolding(crate::specs::Branches::appended, crate::specs::Branches::appended_as))]
    pub fn weighted(read: Read) -> Branches
        ensures { Makes result (pushed_weighted read) }
    {
        Branches {
            first: read,
            second: read,
            kind: BranchKind::Weighted,
        }
    }

    // Two reads whose gains count.
    #[tactic(auto, unfolding(crate::specs::Branches::appended, crate::specs::Branches::appended_as))]
    pub fn both(first: Read, second: Read) -> Branches
        ensures { Makes result (pushed_both first second) }
    {
        Branches {
            first,
            second,
            kind: BranchKind::Both,
        }
    }

    // Two branches, `a` weighted `wa` and `b` weighted 1 - `wa`, each also weighted `gain`: the
    // heavier first, and the lighter only if it has any weight.
    pub fn pair(a: u32, wa: f32, b: u32, gain: f32) -> Branches
        ensures { Makes result (pushed_pair a wa b gain) }
    {
        let wb = 1.0 - wa;
        let mask = a_first(wa);
        let first = pick_word(mask, b, a);
        let second = pick_word(mask, a, b);
        let first_weight = pick(mask, wb, wa);
        let second_weight = 1.0 - first_weight;
        let kind = kind_of(second_weight);
        Branches {
            first: Read {
                word: first,
                gain: first_weight * gain,
            },
            second: Read {
                word: second,
                gain: second_weight * gain,
            },
            kind,
        }
    }
}
