// How strongly the maps bend the phase: the numbers that a map and its slope share.
ghost use Rattle.std.specs.Prelude.{◌≡◌};
ghost use Rattle.slope.specs.Strengths.{pinch_strength, lean_strength};

use modes::numbers::{LEAN_LEFT, LEAN_RIGHT, PINCH_IN, PINCH_OUT};

pub const PINCH_MAX: f32 = 0.8;

pub const LEAN_MAX: f32 = 1.8;

pub const PULSE_MAX: f32 = 0.95;

// The pinch map's strength, -`PINCH_MAX` (out) to +`PINCH_MAX` (in).
#[tactic(auto, unfolding(crate::specs::Strengths::pinch_strength, modes::specs::Choice::case_of))]
pub fn pinch_strength(mode: u32, a: f32) -> f32
    ensures { result ≡ pinch_strength mode a }
{
    match mode {
        PINCH_IN => a * PINCH_MAX,
        PINCH_OUT => -a * PINCH_MAX,
        _ => (a * 2.0 - 1.0) * PINCH_MAX,
    }
}

// The lean map's strength: negative leans right (the cycle's content later), positive left. It is not the
// pinch map's of the other sign, since half way 1 - 2a is +0 where -(2a - 1) is -0.
#[tactic(auto, unfolding(crate::specs::Strengths::lean_strength, modes::specs::Choice::case_of))]
pub fn lean_strength(mode: u32, a: f32) -> f32
    ensures { result ≡ lean_strength mode a }
{
    match mode {
        LEAN_RIGHT => -a * LEAN_MAX,
        LEAN_LEFT => a * LEAN_MAX,
        _ => (1.0 - a * 2.0) * LEAN_MAX,
    }
}
