// A stage's allpass coefficients, and the card's own.
ghost use Rattle.std.specs.Prelude.{◌≡◌, ◌+◌, ◌≤◌, length, slice_index};
ghost use Rattle.limits.specs.Lengths.{coefs_length};
ghost use Rattle.halfband.specs.Floats.{design_at, designs_of, card_designs};

// The first coefficient goes to the path that is fed the later sample of each pair, then they alternate. Of the twelve
// that C lends the first `count` are taken. That is any number, and a call refuses one above 12: an `ArrayVec` would
// ask more of whoever makes a design.
#[derive(Clone, Copy)]
pub struct Design {
    pub coefs: [f32; 12],
    pub count: u32,
}

// Indexed by how many stages before the last.
#[derive(Clone, Copy)]
pub struct Designs {
    pub stages: [Design; 3],
}

// The card's own: what the Rust's `design` makes of 100 dB and each stage's transition.
pub const CARD: Designs = Designs {
    stages: [
        Design {
            coefs: [
                0.034332752,
                0.12848179,
                0.26047325,
                0.40524498,
                0.5431863,
                0.66346705,
                0.7630483,
                0.8440243,
                0.9112316,
                0.9708499,
                0.0,
                0.0,
            ],
            count: 10,
        },
        Design {
            coefs: [
                0.036116753,
                0.13707772,
                0.28504226,
                0.4614878,
                0.65648645,
                0.87495035,
                0.0,
                0.0,
                0.0,
                0.0,
                0.0,
                0.0,
            ],
            count: 6,
        },
        Design {
            coefs: [
                0.035724986,
                0.13916272,
                0.30249274,
                0.5226143,
                0.81379634,
                0.0,
                0.0,
                0.0,
                0.0,
                0.0,
                0.0,
                0.0,
            ],
            count: 5,
        },
    ],
};

#[tactic(auto, unfolding(crate::specs::Floats::card_designs))]
pub fn card_designs() -> Designs
    ensures { result ≡ card_designs }
{
    CARD
}

// The 12 coefficients from `at` on.
fn design_at(coefs: &[f32], at: usize, count: u32) -> Design
    requires { at + 12 ≤ length coefs.now }
    ensures { result ≡ design_at coefs.now at count }
{
    let mut taken = [0.0; 12];
    taken.copy_from_slice(&coefs[at..at + 12]);
    Design {
        coefs: taken,
        count,
    }
}

// Three designs from one slice, 12 coefficients each.
#[tactic(auto, unfolding(crate::specs::Floats::designs_of))]
pub fn designs_of(coefs: &[f32], counts: [u32; 3]) -> Designs
    requires { coefs_length ≤ length coefs.now }
    ensures { result ≡ designs_of coefs.now (slice_index counts 0) (slice_index counts 1) (slice_index counts 2) }
{
    Designs {
        stages: [
            design_at(coefs, 0, counts[0]),
            design_at(coefs, 12, counts[1]),
            design_at(coefs, 24, counts[2]),
        ],
    }
}
