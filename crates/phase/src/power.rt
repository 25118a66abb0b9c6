// The power of two in a slot's map: it goes by the mode and the amount alone, so that a render works it
// out once for many reads.
ghost use Rattle.std.specs.Prelude.{◌≡◌};
ghost use Rattle.phase.specs.Power.{ratio_of, step_count, map_power};

use floats::exp2;
use modes::numbers::{QUANTISE, SYNC};

// Sync's ratio.
#[tactic(auto, unfolding(crate::specs::Power::ratio_of))]
fn ratio_of(a: f32) -> f32
    ensures { result ≡ ratio_of a }
{
    exp2(a * 4.0)
}

// How many steps a cycle has under Quantise.
#[tactic(auto, unfolding(crate::specs::Power::step_count))]
fn step_count(a: f32) -> f32
    ensures { result ≡ step_count a }
{
    exp2((1.0 - a) * 10.0) * 2.0
}

// 1 for a mode whose map has no power.
#[tactic(auto, unfolding(crate::specs::Power::map_power, modes::specs::Choice::case_of))]
pub fn map_power(mode: u32, a: f32) -> f32
    ensures { result ≡ map_power mode a }
{
    match mode {
        SYNC => ratio_of(a),
        QUANTISE => step_count(a),
        _ => 1.0,
    }
}
