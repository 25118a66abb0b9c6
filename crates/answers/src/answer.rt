// The library's answer to an operation of the vectors, on bit patterns.
ghost use Rattle.std.specs.Prelude.{◌≡◌, from_bits, to_bits};
ghost use Rattle.std.specs.Float.{binary32};

use crate::facts::{coded, fm_type, modulated, source, stage};
use crate::phases::slope_table;
use curve::Curve;
use floats::{abs, cast_word, exp2, floor, nearest_i32, nearest_u32, sign_bit, split, sqrt};

// The float with this bit pattern; every NaN is read as one value, and written as one pattern. By hand, since
// `from_bits` and `to_bits` take no NaN.
#[tactic(auto, using(std::proofs::lemmas::Float::not_nan_f32_bits, crate::proofs::Nan::one_nan))]
pub fn float(bits: u32) -> f32
    ensures { result ≡ from_bits binary32 bits }
{
    if bits % 0x8000_0000 > 0x7f80_0000 {
        f32::NAN
    } else {
        f32::from_bits(bits)
    }
}

#[tactic(auto, using(crate::proofs::Nan::one_pattern))]
pub fn pattern(x: f32) -> u32
    ensures { result ≡ to_bits binary32 x }
{
    if x.is_nan() { 0x7fc0_0000 } else { x.to_bits() }
}

// A function on floats as one on patterns. That it may always be called is asked by each of the three: no type says so.
fn one<F: Fn(f32) -> f32>(of: F, a: u32) -> u32
    requires { F.IsAlwaysCallable of }
{
    pattern(of(float(a)))
}

fn two<F: Fn(f32, f32) -> f32>(of: F, a: u32, b: u32) -> u32
    requires { F.IsAlwaysCallable of }
{
    pattern(of(float(a), float(b)))
}

fn three<F: Fn(f32, f32, f32) -> f32>(of: F, a: u32, b: u32, c: u32) -> u32
    requires { F.IsAlwaysCallable of }
{
    pattern(of(float(a), float(b), float(c)))
}

// The steepest slope of a seed's table.
fn steepest(seed: u32) -> f32 {
    let slopes = slope_table(seed);
    Curve { values: &slopes }.steepest()
}

// What each operation of a line answers to its words; a NaN to one that there is not. An operation is the lines'
// number: an enum of them would be this table a second time.
pub fn answer(table: &[f32; 1025], op: u32, words: [u32; 3]) -> u32 {
    let [a, b, c] = words;
    let numbers = lanes::rust_numbers();
    match op {
        0x00 => two(lanes::min, a, b),
        0x01 => two(lanes::max, a, b),
        0x02 => three(lanes::mul_add, a, b, c),
        0x03 => one(abs, a),
        0x04 => one(sqrt, a),
        0x05 => one(floor, a),
        0x06 => one(sign_bit, a),
        0x07 => one(exp2, a),
        0x08 => u32::from(lanes::any(float(a))),
        0x09 => one(|x| split(x).exponent, a),
        0x0a => one(|x| split(x).mantissa, a),
        0x0b => lanes::add_words(a, b),
        0x0c => lanes::pick_word(float(a), b, c),
        0x0d => pattern(lanes::signed(a)),
        0x0e => lanes::to_word(float(a)),
        0x0f => one(|x| lanes::lookup(table, x), a),
        0x10 => three(lanes::pick, a, b, c),
        0x11 => one(lanes::above, a),
        0x12 => one(lanes::sign, a),
        0x13 => three(lanes::clamp, a, b, c),
        0x14 => one(lanes::smoothstep, a),
        0x15 => one(|x| lanes::sin_cycles(numbers, x), a),
        0x16 => one(|x| lanes::cos_cycles(numbers, x), a),
        0x17 => one(|x| lanes::atan(numbers, x), a),
        0x18 => one(lanes::tanh, a),
        0x19 => one(lanes::exp, a),
        0x1a => one(lanes::ln, a),
        0x1b => one(lanes::ln_cosh, a),
        0x1c => one(|x| lanes::tan(numbers, x), a),
        0x1d => cast_word(float(a)),
        0x1e => pattern(nearest_u32(a)),
        0x1f => pattern(nearest_i32(a)),
        0x20 => coded(source(a)),
        0x21 => coded(fm_type(a)),
        0x22 => coded(modulated(a)),
        0x23 => coded(stage(a)),
        0x24 => coded(modes::oversampled(a).map(u32::from)),
        0x25 => coded(modes::distortion(a).map(u32::from)),
        0x26 => one(|x| Curve { values: table }.value(x), a),
        0x27 => pattern(steepest(a)),
        0x28 => coded(slope::stretch(a % 72, float(b), float(c)).map(pattern)),
        0x30 => one(|x| wave::curve(numbers, a % 70, x), b),
        0x31 => one(|x| wave::integral(numbers, a % 70, x), b),
        0x32 => one(|x| wave::drive(a % 70, x), b),
        0x33 => two(|x, y| wave::distort(numbers, a % 70, x, y), b, c),
        0x34 => one(|x| wave::cutoff_harmonic(a % 70, x), b),
        0x35 => one(wave::damping, a),
        _ => pattern(f32::NAN),
    }
}
