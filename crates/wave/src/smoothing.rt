// The distortions with their drive: as the preview draws them, and by the antiderivative method.
ghost use Rattle.std.specs.Prelude.{◌≡◌};
ghost use Rattle.wave.specs.Smooth.{most_of, drive_of, gain_of, rectified, distort_of, driven_of, apart_of, blend_of, smooth_of, distort_smooth};

use crate::curves::curve;
use crate::filters::{Filtered, Svf};
use crate::integrals::integral;
use floats::{abs, exp2};
use lanes::{Numbers, above, max, pick};
use modes::numbers::{FOLD, RECTIFY, SINE_FOLD};

// What the distortions are driven by at amount 1, in decibels.
pub const DRIVE_MAX_DB: f32 = 30.0;

// The same for the folds, whose every 6 dB folds the wave twice as many times.
pub const FOLD_DRIVE_MAX_DB: f32 = 18.0;

#[tactic(auto, unfolding(crate::specs::Smooth::most_of, modes::specs::Choice::case_of))]
fn most(mode: u32) -> f32
    ensures { result ≡ most_of mode }
{
    match mode {
        FOLD | SINE_FOLD => FOLD_DRIVE_MAX_DB,
        _ => DRIVE_MAX_DB,
    }
}

// `mode`'s drive gain at amount `a`.
#[tactic(auto, unfolding(crate::specs::Smooth::drive_of), using(floats::specs::Steps::steps))]
pub fn drive(mode: u32, a: f32) -> f32
    ensures { result ≡ drive_of mode a }
{
    exp2(a * (most(mode) / 6.020_6))
}

// The drive that a slot's setting carries: 1 for Rectify, which is not driven.
#[tactic(auto, unfolding(crate::specs::Smooth::gain_of, modes::specs::Choice::case_of))]
pub fn gain(mode: u32, a: f32) -> f32
    ensures { result ≡ gain_of mode a }
{
    match mode {
        RECTIFY => 1.0,
        _ => drive(mode, a),
    }
}

// Blends towards full-wave rectification.
#[tactic(auto, unfolding(crate::specs::Smooth::rectified), using(floats::specs::Steps::steps))]
pub fn blend_rectified(a: f32, x: f32) -> f32
    ensures { result ≡ rectified a x }
{
    (abs(x) - x) * a + x
}

// A distortion mode's curve at amount `a` (0 to 1), applied to `x`, as the 2D preview draws it. Here and in
// `distort_smooth` the parameters are the Rust's, after the numbers.
#[tactic(auto, unfolding(crate::specs::Smooth::distort_of, modes::specs::Choice::case_of, crate::specs::Smooth::curved), using(floats::specs::Steps::steps))]
pub fn distort(numbers: Numbers, mode: u32, a: f32, x: f32) -> f32
    ensures { result ≡ distort_of numbers.sin mode a x }
{
    match mode {
        RECTIFY => blend_rectified(a, x),
        _ => curve(numbers, mode, x * drive(mode, a)),
    }
}

#[tactic(auto, unfolding(crate::specs::Smooth::driven_of, modes::specs::Choice::case_of))]
fn driven_by(mode: u32, a: f32, x: f32) -> f32
    ensures { result ≡ driven_of mode a x }
{
    match mode {
        RECTIFY => x,
        _ => x * drive(mode, a),
    }
}

// 1 where two inputs differ by 1 % of their size or more, the size counting as 1 at least, else 0. The integrals'
// rounding grows with their size, so the closeness allowed does too.
#[tactic(auto, unfolding(crate::specs::Smooth::apart_of), using(floats::specs::Steps::steps))]
fn apart_from(driven: f32, last: f32) -> f32
    ensures { result ≡ apart_of driven last }
{
    let step = driven - last;
    let scale = max(max(abs(driven), abs(last)), 1.0);
    above(abs(step) - scale * 1e-2)
}

// The rectifier blended with the input, both delayed half a sample alike; any other mode's `y` is kept.
#[tactic(auto, unfolding(crate::specs::Smooth::blend_of, modes::specs::Choice::case_of), using(floats::specs::Steps::steps))]
fn blend(mode: u32, a: f32, x: f32, last: f32, y: f32) -> f32
    ensures { result ≡ blend_of mode a x last y }
{
    let linear = (x + last) * 0.5;
    match mode {
        RECTIFY => (y - linear) * a + linear,
        _ => y,
    }
}

// The curve's mean over the straight line from the last input to `driven`: the integral's difference
// over the input's. Where the inputs are too close for the difference to be accurate, the curve at
// their midpoint. `x` is the sample before the drive.
#[tactic(auto, unfolding(crate::specs::Smooth::smooth_of), using(floats::specs::Steps::steps))]
pub fn smooth(numbers: Numbers, mode: u32, a: f32, driven: f32, x: f32, state: Svf) -> Filtered
    ensures { result ≡ smooth_of numbers.sin mode a driven x state }
{
    let area = integral(numbers, mode, driven);
    let last = state.ic1;
    let step = driven - last;
    let apart = apart_from(driven, last);
    let mean = (area - state.ic2) / pick(apart, 1.0, step);
    let midpoint = curve(numbers, mode, (driven + last) * 0.5);
    let y = pick(apart, midpoint, mean);
    let blended = blend(mode, a, x, last, y);
    Filtered {
        y: blended,
        state: Svf {
            ic1: driven,
            ic2: area,
        },
    }
}

// A distortion mode at amount `a` applied to `x` by the first-order antiderivative method.
#[tactic(auto, unfolding(crate::specs::Smooth::distort_smooth), using(floats::specs::Steps::steps))]
pub fn distort_smooth(numbers: Numbers, mode: u32, a: f32, x: f32, state: Svf) -> Filtered
    ensures { result ≡ distort_smooth numbers.sin mode a x state }
{
    let driven = driven_by(mode, a, x);
    smooth(numbers, mode, a, driven, x, state)
}
