// The curves' integrals from 0 to `x`, for the antiderivative method: one function for each arm of the
// Rust's `integral`.
ghost use Rattle.std.specs.Prelude.{◌≡◌};
ghost use Rattle.wave.specs.Integral.{beyond_of, valve_integral, soft_clip_integral, hard_clip_integral, diode1_integral, diode2_integral, fold_integral, sine_fold_integral, zero_square_integral, asymmetric_integral, rectify_integral, sine_shaper_integral, pedal_integral, tape_integral, soft_saturate_integral, integral_of};

use crate::curves::{FRAC_PI_2, TAU, VALVE_BIAS, VALVE_TANH_BIAS};
use floats::{abs, floor, sqrt};
use lanes::{Numbers, clamp, cos_cycles, exp, ln, ln_cosh, max, min};
use modes::numbers::{
    ASYMMETRIC, DIODE1, DIODE2, FOLD, HARD_CLIP, PEDAL, RECTIFY, SINE_FOLD, SINE_SHAPER, SOFT_CLIP,
    SOFT_SATURATE, TAPE, VALVE, ZERO_SQUARE,
};

// ln cosh of the valve's bias.
pub const VALVE_LN_COSH_BIAS: f32 = 0.030_929_8;

const PI: f32 = 3.1415927;

// Past a clipping curve's knee at ±`knee`, the integral grows by the distance beyond it.
#[tactic(auto, unfolding(crate::specs::Integral::beyond_of), using(floats::specs::Steps::steps))]
fn beyond(x: f32, knee: f32) -> f32
    ensures { result ≡ beyond_of x knee }
{
    abs(x) - abs(knee)
}

#[tactic(auto, unfolding(crate::specs::Integral::valve_integral), using(floats::specs::Steps::steps))]
fn valve(x: f32) -> f32
    ensures { result ≡ valve_integral x }
{
    (ln_cosh(x + VALVE_BIAS) - VALVE_LN_COSH_BIAS - VALVE_TANH_BIAS * x)
        * (1.0 / (1.0 - VALVE_TANH_BIAS * VALVE_TANH_BIAS))
}

#[tactic(auto, unfolding(crate::specs::Integral::soft_clip_integral), using(floats::specs::Steps::steps))]
fn soft_clip(x: f32) -> f32
    ensures { result ≡ soft_clip_integral x }
{
    let z = clamp(x, -1.5, 1.5);
    let z2 = z * z;
    z2 * 0.5 - z2 * z2 * (1.0 / 27.0) + beyond(x, z)
}

#[tactic(auto, unfolding(crate::specs::Integral::hard_clip_integral), using(floats::specs::Steps::steps))]
fn hard_clip(x: f32) -> f32
    ensures { result ≡ hard_clip_integral x }
{
    let z = clamp(x, -1.0, 1.0);
    z * z * 0.5 + beyond(x, z)
}

#[tactic(auto, unfolding(crate::specs::Integral::diode1_integral), using(floats::specs::Steps::steps))]
fn diode1(x: f32) -> f32
    ensures { result ≡ diode1_integral x }
{
    let positive = max(x, 0.0);
    let negative = min(x, 0.0);
    (positive + exp(-positive) - 1.0) + (4.0 * exp(negative * 0.5) - 2.0 * negative - 4.0)
}

#[tactic(auto, unfolding(crate::specs::Integral::diode2_integral), using(floats::specs::Steps::steps))]
fn diode2(x: f32) -> f32
    ensures { result ≡ diode2_integral x }
{
    let a = abs(x);
    a + exp(-a) - 1.0
}

#[tactic(auto, unfolding(crate::specs::Integral::fold_integral), using(floats::specs::Steps::steps))]
fn fold(x: f32) -> f32
    ensures { result ≡ fold_integral x }
{
    let t = (x + 1.0) * 0.25;
    let s = 2.0 * (t - floor(t)) - 1.0;
    2.0 * s * (1.0 - abs(s)) + 0.5
}

#[tactic(auto, unfolding(crate::specs::Integral::sine_fold_integral), using(floats::specs::Steps::steps))]
fn sine_fold(numbers: Numbers, x: f32) -> f32
    ensures { result ≡ sine_fold_integral numbers.sin x }
{
    (1.0 - cos_cycles(numbers, x * 0.25)) * (2.0 / PI)
}

#[tactic(auto, unfolding(crate::specs::Integral::zero_square_integral), using(floats::specs::Steps::steps))]
fn zero_square(x: f32) -> f32
    ensures { result ≡ zero_square_integral x }
{
    let z = clamp(x, -1.0, 1.0);
    let a = abs(z);
    a * a * a * (1.0 / 3.0) + beyond(x, z)
}

// The halves of the curve, each by its own integral. With the curve's function it shares the two halves alone: one
// over a closure would be given all that they say.
#[tactic(auto, unfolding(crate::specs::Integral::asymmetric_integral), using(floats::specs::Steps::steps))]
fn asymmetric(x: f32) -> f32
    ensures { result ≡ asymmetric_integral x }
{
    let positive = max(x, 0.0);
    let negative = min(x, 0.0);
    ln_cosh(positive * 2.0) * 0.25 + ln_cosh(negative * 0.5) * 4.0
}

#[tactic(auto, unfolding(crate::specs::Integral::rectify_integral), using(floats::specs::Steps::steps))]
fn rectify(x: f32) -> f32
    ensures { result ≡ rectify_integral x }
{
    x * abs(x) * 0.5
}

#[tactic(auto, unfolding(crate::specs::Integral::sine_shaper_integral), using(floats::specs::Steps::steps))]
fn sine_shaper(numbers: Numbers, x: f32) -> f32
    ensures { result ≡ sine_shaper_integral numbers.sin x }
{
    let z = clamp(x, -FRAC_PI_2, FRAC_PI_2);
    1.0 - cos_cycles(numbers, z * (1.0 / TAU)) + beyond(x, z)
}

#[tactic(auto, unfolding(crate::specs::Integral::pedal_integral), using(floats::specs::Steps::steps))]
fn pedal(x: f32) -> f32
    ensures { result ≡ pedal_integral x }
{
    let positive = max(x, 0.0);
    let clipped = min(positive, 1.0);
    let negative = min(x, 0.0);
    clipped * clipped * 0.5 + (positive - clipped) + sqrt(negative * negative + 1.0) - 1.0
}

#[tactic(auto, unfolding(crate::specs::Integral::tape_integral), using(floats::specs::Steps::steps))]
fn tape(x: f32) -> f32
    ensures { result ≡ tape_integral x }
{
    sqrt(x * x + 1.0) - 1.0
}

#[tactic(auto, unfolding(crate::specs::Integral::soft_saturate_integral), using(floats::specs::Steps::steps))]
fn soft_saturate(x: f32) -> f32
    ensures { result ≡ soft_saturate_integral x }
{
    let a = abs(x);
    a - ln(1.0 + a)
}

// The integral of `curve` from 0 to `x`, arm for arm, as `curve` has them.
#[tactic(auto, unfolding(crate::specs::Integral::integral_of, modes::specs::Choice::case_of))]
pub fn integral(numbers: Numbers, mode: u32, x: f32) -> f32
    ensures { result ≡ integral_of numbers.sin mode x }
{
    match mode {
        VALVE => valve(x),
        SOFT_CLIP => soft_clip(x),
        HARD_CLIP => hard_clip(x),
        DIODE1 => diode1(x),
        DIODE2 => diode2(x),
        FOLD => fold(x),
        SINE_FOLD => sine_fold(numbers, x),
        ZERO_SQUARE => zero_square(x),
        ASYMMETRIC => asymmetric(x),
        RECTIFY => rectify(x),
        SINE_SHAPER => sine_shaper(numbers, x),
        PEDAL => pedal(x),
        TAPE => tape(x),
        SOFT_SATURATE => soft_saturate(x),
        _ => x * x * 0.5,
    }
}
