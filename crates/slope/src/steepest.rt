// The steepest slope that a mode reads the cycle with: how much faster than the running phase it
// reads at most.
ghost use Rattle.std.specs.Prelude.{◌≡◌};
ghost use Rattle.limits.specs.Refusals.{value_answer};
ghost use Rattle.slope.specs.Slope.{lean_steepest, pinch_slope, slope_of, stretch_of, stretch_answer, lean_slope};

use crate::strengths::{LEAN_MAX, PULSE_MAX, lean_strength, pinch_strength};
use floats::{abs, exp2, sqrt};
use lanes::clamp;
use limits::{Refusal, mode_bad};
use modes::numbers::{
    LEAN, LEAN_LEFT, LEAN_RIGHT, MIRROR, PINCH, PINCH_IN, PINCH_OUT, PULSE_WIDTH, REMAP_DRAWN,
    REMAP_MIRRORED, REMAP_QUAD, REMAP_SINE, SYNC,
};

// The lean map's steepest slope at strength `beta`.
#[tactic(auto, unfolding(crate::specs::Slope::lean_steepest), using(floats::specs::Steps::steps))]
fn lean_steepest(beta: f32) -> f32
    ensures { result ≡ lean_steepest beta }
{
    let b = abs(beta);
    let root = sqrt(b * b + 4.0);
    (b * b + 2.0 + b * root) * 0.5
}

#[tactic(auto, unfolding(crate::specs::Slope::pinch_slope), using(floats::specs::Steps::steps))]
fn pinch_slope(mode: u32, a: f32) -> f32
    ensures { result ≡ pinch_slope mode a }
{
    let s = abs(pinch_strength(mode, a));
    (1.0 + s) / (1.0 - s)
}

#[tactic(auto, unfolding(crate::specs::Slope::lean_slope), using(floats::specs::Steps::steps))]
fn lean_slope(mode: u32, a: f32) -> f32
    ensures { result ≡ lean_slope mode a }
{
    lean_steepest(lean_strength(mode, a))
}

// The slope at the amount `a`, 0 to 1. A `match`: C's number comes in, and each arm goes by numbers of its own, so that
// a table of closures would be the same arms with a search before them.
#[tactic(auto, unfolding(crate::specs::Slope::slope_of, modes::specs::Choice::case_of))]
fn slope_of(mode: u32, a: f32, curve: f32) -> f32
    ensures { result ≡ slope_of mode a curve }
{
    match mode {
        SYNC => exp2(4.0 * a),
        PINCH_IN | PINCH_OUT | PINCH => pinch_slope(mode, a),
        PULSE_WIDTH => 1.0 / (1.0 - a * PULSE_MAX),
        LEAN_RIGHT | LEAN_LEFT | LEAN => lean_slope(mode, a),
        MIRROR => lean_steepest(a * LEAN_MAX),
        REMAP_DRAWN | REMAP_MIRRORED | REMAP_QUAD => 1.0 + a * (curve - 1.0),
        REMAP_SINE => 1.0 + a,
        _ => 1.0,
    }
}

// The steepest slope at `amount`, with the remap curve's steepest slope `curve`.
#[tactic(auto, unfolding(crate::specs::Slope::stretch_of), using(floats::specs::Steps::steps))]
pub fn stretch_of(mode: u32, amount: f32, curve: f32) -> f32
    ensures { result ≡ stretch_of mode amount curve }
{
    let a = clamp(amount, 0.0, 1.0);
    slope_of(mode, a, curve)
}

// The same as a call of its own: a mode above 69 is refused.
#[tactic(auto, unfolding(crate::specs::Slope::stretch_answer, limits::specs::Refusals::value_answer, limits::specs::Refusals::line_of))]
pub fn stretch(mode: u32, amount: f32, curve: f32) -> Result<f32, Refusal>
    ensures { value_answer result ≡ stretch_answer mode amount curve }
{
    if mode_bad(mode) {
        return Err(Refusal::Mode);
    }
    Ok(stretch_of(mode, amount, curve))
}
