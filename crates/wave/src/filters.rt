// The filters: a state-variable filter (Simper's trapezoidal SVF) for each lane, 12 dB an octave, whose
// cutoff is a harmonic of the note.
ghost use Rattle.std.specs.Prelude.{◌≡◌};
ghost use Rattle.wave.specs.Filter.{cutoff_harmonic, damping_of, tangent_of, filter_with, filter_of};

use floats::exp2;
use lanes::{Numbers, clamp, min, tan};
use modes::numbers::LOW_PASS;

const PI: f32 = 3.1415927;

const SQRT_2: f32 = 1.4142135;

// One lane of a filter's state. A distortion keeps its last input, after the drive, and that input's
// integral in it.
#[repr(C)]
#[derive(Clone, Copy)]
pub struct Svf {
    pub ic1: f32,
    pub ic2: f32,
}

// A shaped sample and the state after it, which stands first so that it is copied in one piece.
#[repr(C)]
#[derive(Clone, Copy)]
pub struct Filtered {
    pub state: Svf,
    pub y: f32,
}

// A filter mode's cutoff, as a harmonic of the note, at amount `a`: low-pass from harmonic 2,048 at 0 %
// down to the fundamental at 100 %; high-pass from a quarter of the fundamental up to harmonic 1,024.
#[tactic(auto, unfolding(crate::specs::Filter::cutoff_harmonic, modes::specs::Choice::case_of))]
pub fn cutoff_harmonic(mode: u32, a: f32) -> f32
    ensures { result ≡ cutoff_harmonic mode a }
{
    match mode {
        LOW_PASS => exp2((1.0 - a) * 11.0),
        _ => exp2(a * 12.0 + -2.0),
    }
}

// The filters' damping (1 / Q): Butterworth (√2) at character 0, falling to 0.21 (a 13 dB peak) at 1.
#[tactic(auto, unfolding(crate::specs::Filter::damping_of), using(floats::specs::Steps::steps))]
pub fn damping(character: f32) -> f32
    ensures { result ≡ damping_of character }
{
    SQRT_2 - 1.2 * clamp(character, 0.0, 1.0)
}

// The tangent of a filter's cutoff, which is `harmonic` of a note whose phase moves `increment` cycles a
// sample. It goes by no sample, so that a filter that stays works it out once.
#[tactic(auto, unfolding(crate::specs::Filter::tangent_of), using(floats::specs::Steps::steps))]
#[inline(always)]
pub fn tangent(numbers: Numbers, harmonic: f32, increment: f32) -> f32
    ensures { result ≡ tangent_of numbers.sin harmonic increment }
{
    let cutoff = min(harmonic * increment, 0.45);
    tan(numbers, cutoff * PI)
}

// Filters `x` through `state`, giving the low-pass or the high-pass output: the cutoff's tangent is `g`,
// the damping `k`.
pub fn filter_with(mode: u32, g: f32, k: f32, x: f32, state: Svf) -> Filtered
    ensures { result ≡ filter_with mode g k x state }
{
    let a1 = 1.0 / (g * (g + k) + 1.0);
    let a2 = g * a1;
    let a3 = g * a2;
    let v3 = x - state.ic2;
    let v1 = a1 * state.ic1 + a2 * v3;
    let v2 = state.ic2 + (a2 * state.ic1 + a3 * v3);
    let next = Svf {
        ic1: 2.0 * v1 - state.ic1,
        ic2: 2.0 * v2 - state.ic2,
    };
    let y = match mode {
        LOW_PASS => v2,
        _ => x - k * v1 - v2,
    };
    Filtered { state: next, y }
}

// The same, with the tangent worked out.
#[tactic(auto, unfolding(crate::specs::Filter::filter_of), using(floats::specs::Steps::steps))]
pub fn filter(
    numbers: Numbers,
    mode: u32,
    harmonic: f32,
    increment: f32,
    k: f32,
    x: f32,
    state: Svf,
) -> Filtered
    ensures { result ≡ filter_of numbers.sin mode harmonic increment k x state }
{
    let g = tangent(numbers, harmonic, increment);
    filter_with(mode, g, k, x, state)
}
