// The distortions' curves: one function for each arm of the Rust's `curve`, each applied after the
// drive. Their slope at 0 is 1, but Zero-square's, which is 0.
ghost use Rattle.std.specs.Prelude.{◌≡◌};
ghost use Rattle.wave.specs.Curve.{valve_curve, soft_clip_curve, hard_clip_curve, diode1_curve, diode2_curve, fold_curve, sine_fold_curve, zero_square_curve, asymmetric_curve, rectify_curve, sine_shaper_curve, pedal_curve, tape_curve, soft_saturate_curve, curve_of, curves_of};

use floats::{abs, floor, sqrt};
use lanes::{Numbers, clamp, exp, max, min, sign, sin_cycles, tanh};
use modes::numbers::{
    ASYMMETRIC, DIODE1, DIODE2, FOLD, HARD_CLIP, PEDAL, RECTIFY, SINE_FOLD, SINE_SHAPER, SOFT_CLIP,
    SOFT_SATURATE, TAPE, VALVE, ZERO_SQUARE,
};

// tanh of the valve's bias.
pub const VALVE_TANH_BIAS: f32 = 0.244_918_66;

// The valve's bias, before the curve.
pub const VALVE_BIAS: f32 = 0.25;

pub const FRAC_PI_2: f32 = 1.5707964;

pub const TAU: f32 = 6.2831855;

// A biased hyperbolic tangent: softer on one side, so even harmonics as well as odd.
#[tactic(auto, unfolding(crate::specs::Curve::valve_curve), using(floats::specs::Steps::steps))]
fn valve(x: f32) -> f32
    ensures { result ≡ valve_curve x }
{
    (tanh(x + VALVE_BIAS) - VALVE_TANH_BIAS) * (1.0 / (1.0 - VALVE_TANH_BIAS * VALVE_TANH_BIAS))
}

// A cubic with slope 1 at 0 and 0 at ±1.5, where it reaches ±1.
#[tactic(auto, unfolding(crate::specs::Curve::soft_clip_curve), using(floats::specs::Steps::steps))]
fn soft_clip(x: f32) -> f32
    ensures { result ≡ soft_clip_curve x }
{
    let z = clamp(x, -1.5, 1.5);
    z - z * z * z * (4.0 / 27.0)
}

#[tactic(auto, unfolding(crate::specs::Curve::hard_clip_curve))]
fn hard_clip(x: f32) -> f32
    ensures { result ≡ hard_clip_curve x }
{
    clamp(x, -1.0, 1.0)
}

// One diode: the positive half limits at 1 exponentially, the negative half later and softer, at -2.
#[tactic(auto, unfolding(crate::specs::Curve::diode1_curve), using(floats::specs::Steps::steps))]
fn diode1(x: f32) -> f32
    ensures { result ≡ diode1_curve x }
{
    let positive = max(x, 0.0);
    let negative = min(x, 0.0);
    (1.0 - exp(-positive)) - 2.0 * (1.0 - exp(negative * 0.5))
}

// Two diodes back to back: both halves limit at ±1.
#[tactic(auto, unfolding(crate::specs::Curve::diode2_curve), using(floats::specs::Steps::steps))]
fn diode2(x: f32) -> f32
    ensures { result ≡ diode2_curve x }
{
    sign(x) * (1.0 - exp(-abs(x)))
}

// Folds back from ±1, again and again: a triangle of the input.
#[tactic(auto, unfolding(crate::specs::Curve::fold_curve), using(floats::specs::Steps::steps))]
fn fold(x: f32) -> f32
    ensures { result ≡ fold_curve x }
{
    let t = (x + 1.0) * 0.25;
    1.0 - abs(4.0 * (t - floor(t)) - 2.0)
}

#[tactic(auto, unfolding(crate::specs::Curve::sine_fold_curve))]
fn sine_fold(numbers: Numbers, x: f32) -> f32
    ensures { result ≡ sine_fold_curve numbers.sin x }
{
    sin_cycles(numbers, x * 0.25)
}

// Squared towards zero, keeping its sign: quiet parts drop away, then ±1 clips.
#[tactic(auto, unfolding(crate::specs::Curve::zero_square_curve), using(floats::specs::Steps::steps))]
fn zero_square(x: f32) -> f32
    ensures { result ≡ zero_square_curve x }
{
    clamp(x * abs(x), -1.0, 1.0)
}

#[tactic(auto, unfolding(crate::specs::Curve::asymmetric_curve), using(floats::specs::Steps::steps))]
fn asymmetric(x: f32) -> f32
    ensures { result ≡ asymmetric_curve x }
{
    let positive = max(x, 0.0);
    let negative = min(x, 0.0);
    tanh(positive * 2.0) * 0.5 + tanh(negative * 0.5) * 2.0
}

#[tactic(auto, unfolding(crate::specs::Curve::rectify_curve))]
fn rectify(x: f32) -> f32
    ensures { result ≡ rectify_curve x }
{
    abs(x)
}

// A sine's quarter cycle as the curve: flat at ±1.
#[tactic(auto, unfolding(crate::specs::Curve::sine_shaper_curve), using(floats::specs::Steps::steps))]
fn sine_shaper(numbers: Numbers, x: f32) -> f32
    ensures { result ≡ sine_shaper_curve numbers.sin x }
{
    let z = clamp(x, -FRAC_PI_2, FRAC_PI_2);
    sin_cycles(numbers, z * (1.0 / TAU))
}

// Hard clipping on the positive side, soft on the negative.
#[tactic(auto, unfolding(crate::specs::Curve::pedal_curve), using(floats::specs::Steps::steps))]
fn pedal(x: f32) -> f32
    ensures { result ≡ pedal_curve x }
{
    let negative = min(x, 0.0);
    min(max(x, 0.0), 1.0) + negative / sqrt(negative * negative + 1.0)
}

#[tactic(auto, unfolding(crate::specs::Curve::tape_curve), using(floats::specs::Steps::steps))]
fn tape(x: f32) -> f32
    ensures { result ≡ tape_curve x }
{
    x / sqrt(x * x + 1.0)
}

#[tactic(auto, unfolding(crate::specs::Curve::soft_saturate_curve), using(floats::specs::Steps::steps))]
fn soft_saturate(x: f32) -> f32
    ensures { result ≡ soft_saturate_curve x }
{
    x / (1.0 + abs(x))
}

// A distortion mode's curve, applied to `x` after the drive; a mode that is no distortion keeps it. For Rectify, the
// rectifier alone. An arm for each mode, where a table of functions would need the modes' numbers as its places.
// Inlined at every call: with two callers the compiler leaves it a function, and a block run with a distortion takes a
// tenth longer.
#[inline(always)]
#[tactic(auto, unfolding(crate::specs::Curve::curve_of, modes::specs::Choice::case_of))]
pub fn curve(numbers: Numbers, mode: u32, x: f32) -> f32
    ensures { result ≡ curve_of numbers.sin mode x }
{
    match mode {
        VALVE => valve(x),
        SOFT_CLIP => soft_clip(x),
        HARD_CLIP => hard_clip(x),
        DIODE1 => diode1(x),
        DIODE2 => diode2(x),
        FOLD => fold(x),
        SINE_FOLD => sine_fold(numbers, x),
        ZERO_SQUARE => zero_square(x),
        ASYMMETRIC => asymmetric(x),
        RECTIFY => rectify(x),
        SINE_SHAPER => sine_shaper(numbers, x),
        PEDAL => pedal(x),
        TAPE => tape(x),
        SOFT_SATURATE => soft_saturate(x),
        _ => x,
    }
}

// The curve of every number, each times `by` first: a picture's samples with their drive, or many drives
// of one sample.
pub fn curve_all(numbers: Numbers, mode: u32, by: f32, xs: &mut [f32])
    ensures { xs.new ≡ curves_of numbers.sin mode by xs.old }
{
    for x in xs.iter_mut() {
        *x = curve(numbers, mode, *x * by);
    }
}
