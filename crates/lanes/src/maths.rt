// The fast maths of lanes.rs: sine, arctangent, the hyperbolic tangent and the like.
ghost use Rattle.std.specs.Prelude.{◌≡◌, ◌-◌, ◌<◌, length, slice_index_or};
ghost use Rattle.std.specs.Float.{nan};
ghost use Rattle.lanes.specs.Maths.{pick_of, above_of, sign_of, clamp_of, smoothstep_of, horner, sin_cycles, cos_cycles, half_of, atan_of, tanh_of, exp_of, ln_series, ln_of, ln_cosh, tan_of};
ghost use Rattle.lanes.specs.Numbers.{rust_numbers};

use crate::lane::{max, min, mul_add};
use floats::{abs, exp2, floor, sign_bit, split, sqrt};

const TAU: f32 = 6.2831855;

const LOG2_E: f32 = 1.442695;

const LN_2: f32 = 0.6931472;

// The numbers of the sine's and the arctangent's polynomials, `SIN` and `ATAN` of the Rust, as C lends them. The two
// arrays have nothing to do with one another: no number of one belongs to one of the other.
#[repr(C)]
#[derive(Clone, Copy)]
pub struct Numbers {
    pub sin: [f32; 5],
    pub atan: [f32; 8],
}

// The Rust's own numbers, for callers that have no others.
pub const SIN: [f32; 5] = [
    0.999_999_98,
    -0.166_666_48,
    0.008_332_899,
    -0.000_198_008_3,
    2.590_370_3e-6,
];

pub const ATAN: [f32; 8] = [
    1.0,
    -1.0 / 3.0,
    1.0 / 5.0,
    -1.0 / 7.0,
    1.0 / 9.0,
    -1.0 / 11.0,
    1.0 / 13.0,
    -1.0 / 15.0,
];

// The two together.
#[tactic(auto, unfolding(crate::specs::Numbers::rust_numbers))]
pub fn rust_numbers() -> Numbers
    ensures { result ≡ rust_numbers }
{
    Numbers {
        sin: SIN,
        atan: ATAN,
    }
}

// `b` where `mask` is 1, `a` where it's 0. It is arithmetic and no choice.
pub fn pick(mask: f32, a: f32, b: f32) -> f32
    ensures { result ≡ pick_of mask a b }
{
    mul_add(b - a, mask, a)
}

// 1 where `x > 0`, else 0 (+0 counts as above).
#[tactic(auto, unfolding(crate::specs::Maths::above_of))]
pub fn above(x: f32) -> f32
    ensures { result ≡ above_of x }
{
    sign_bit(-x)
}

// -1, or 1 for positive numbers and +0.
#[tactic(auto, unfolding(crate::specs::Maths::sign_of), using(floats::specs::Steps::steps))]
pub fn sign(x: f32) -> f32
    ensures { result ≡ sign_of x }
{
    1.0 - sign_bit(x) * 2.0
}

// `x` clamped to `lo..=hi`.
#[tactic(auto, unfolding(crate::specs::Maths::clamp_of), using(floats::specs::Steps::steps))]
pub fn clamp(x: f32, lo: f32, hi: f32) -> f32
    ensures { result ≡ clamp_of x lo hi }
{
    min(max(x, lo), hi)
}

// The C2 step from 0 to 1 as `t` goes from 0 to 1, clamped outside: 6t^5 - 15t^4 + 10t^3.
#[tactic(auto, unfolding(crate::specs::Maths::smoothstep_of), using(floats::specs::Steps::steps))]
pub fn smoothstep(t: f32) -> f32
    ensures { result ≡ smoothstep_of t }
{
    let t = clamp(t, 0.0, 1.0);
    t * t * t * (t * (t * 6.0 + -15.0) + 10.0)
}

// The polynomial with the coefficients `k` at `x2`, from the last coefficient down.
#[tactic(auto, using(crate::proofs::Polynomials::left_all, crate::proofs::Polynomials::left_less))]
fn polynomial(k: &[f32], x2: f32) -> f32
    requires { 0 < length k.now }
    ensures { result ≡ horner k.now x2 (length k.now - 1) (slice_index_or k.now (length k.now - 1) nan) }
{
    let last = k.len() - 1;
    let mut p = k[last];
    for c in k[..last].iter().rev() {
        p = p * x2 + *c;
    }
    p
}

// sin 2πt, for `t` in cycles (within ±2^23).
pub fn sin_cycles(numbers: Numbers, t: f32) -> f32
    ensures { result ≡ sin_cycles numbers.sin t }
{
    let wrapped = t - floor(t + 0.5);
    let a = abs(wrapped);
    // sin(π - x) = sin x: fold onto a quarter cycle.
    let a = min(a, 0.5 - a);
    let x = a * TAU;
    let x2 = x * x;
    let k = numbers.sin;
    let p = polynomial(&k, x2);
    (p * x) * sign(wrapped)
}

// cos 2πt, for `t` in cycles.
#[tactic(auto, unfolding(crate::specs::Maths::cos_cycles))]
pub fn cos_cycles(numbers: Numbers, t: f32) -> f32
    ensures { result ≡ cos_cycles numbers.sin t }
{
    sin_cycles(numbers, t + 0.25)
}

// The tangent of half the angle whose tangent is `x`.
#[tactic(auto, unfolding(crate::specs::Maths::half_of), using(floats::specs::Steps::steps))]
fn half(x: f32) -> f32
    ensures { result ≡ half_of x }
{
    x / (1.0 + sqrt(x * x + 1.0))
}

// atan x: two half-angle steps bring |x| below tan(π/8), then a polynomial.
pub fn atan(numbers: Numbers, x: f32) -> f32
    ensures { result ≡ atan_of numbers.atan x }
{
    let x = half(half(x));
    let x2 = x * x;
    let k = numbers.atan;
    let p = polynomial(&k, x2);
    p * x * 4.0
}

// tanh x: 1 - 2 / (1 + e^2x), with x clamped to ±9.
#[tactic(auto, unfolding(crate::specs::Maths::tanh_of), using(floats::specs::Steps::steps))]
pub fn tanh(x: f32) -> f32
    ensures { result ≡ tanh_of x }
{
    let x = clamp(x, -9.0, 9.0);
    let e = exp2(x * (2.0 * LOG2_E));
    1.0 - 2.0 / (e + 1.0)
}

// e^x.
#[tactic(auto, unfolding(crate::specs::Maths::exp_of))]
pub fn exp(x: f32) -> f32
    ensures { result ≡ exp_of x }
{
    exp2(x * LOG2_E)
}

// 1 + t2 / 3 + t2^2 / 5 + ..: atanh t / t, as an odd series to t^13.
fn ln_series(t2: f32) -> f32
    ensures { result ≡ ln_series t2 }
{
    let p = 1.0 / 13.0;
    let p = p * t2 + 1.0 / 11.0;
    let p = p * t2 + 1.0 / 9.0;
    let p = p * t2 + 1.0 / 7.0;
    let p = p * t2 + 1.0 / 5.0;
    let p = p * t2 + 1.0 / 3.0;
    p * t2 + 1.0 / 1.0
}

// ln x for positive normal `x`: the exponent times ln 2, plus 2 atanh((m - 1) / (m + 1)) of the
// mantissa. Of any other number what the same steps give; of a NaN it is NaN.
#[tactic(auto, unfolding(crate::specs::Maths::ln_of), using(floats::specs::Steps::steps))]
pub fn ln(x: f32) -> f32
    ensures { result ≡ ln_of x }
{
    let parts = split(x);
    let mantissa = parts.mantissa;
    let exponent = parts.exponent;
    let t = (mantissa - 1.0) / (mantissa + 1.0);
    let p = ln_series(t * t);
    mul_add(exponent, LN_2, p * t * 2.0)
}

// ln cosh x, without overflow: |x| + ln(1 + e^-2|x|) - ln 2.
#[tactic(auto, unfolding(crate::specs::Maths::ln_cosh), using(floats::specs::Steps::steps))]
pub fn ln_cosh(x: f32) -> f32
    ensures { result ≡ ln_cosh x }
{
    let a = abs(x);
    a + ln(1.0 + exp(a * -2.0)) - LN_2
}

// tan x for 0 <= x <= 1.45: sin over cos.
#[tactic(auto, unfolding(crate::specs::Maths::tan_of), using(floats::specs::Steps::steps))]
pub fn tan(numbers: Numbers, x: f32) -> f32
    ensures { result ≡ tan_of numbers.sin x }
{
    let t = x * (1.0 / TAU);
    sin_cycles(numbers, t) / cos_cycles(numbers, t)
}
