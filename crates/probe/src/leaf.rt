// The leaves of floats and lanes. What reads the table of powers runs over slices.
ghost use Rattle.std.specs.Prelude.{◌≡◌, min, length, pos};
ghost use Rattle.std.specs.Float.{binary32};
ghost use Rattle.std.specs.Float.Ieee.{of_int, to_unsigned};
ghost use Rattle.floats.specs.Casts.{as_signed, cast_word};
ghost use Rattle.floats.specs.Floor.{floor_of};
ghost use Rattle.floats.specs.Pattern.{split_of};
ghost use Rattle.floats.specs.Sign.{abs_of, sign_bit};
ghost use Rattle.floats.specs.Sqrt.{sqrt_of};
ghost use Rattle.lanes.specs.Lane.{max_of, min_of, mul_add};
ghost use Rattle.lanes.specs.Maths.{above_of, atan_of, clamp_of, cos_cycles, ln_of, pick_of, sign_of, sin_cycles, smoothstep_of, tan_of};
ghost use Rattle.lanes.specs.Word.{add_words, pick_word, signed_of, to_word};
ghost use Rattle.probe.specs.Leaves.{any_word, lookup_or_zero, powers_leaf, powers_leaf_at};
ghost use Rattle.probe.specs.Runs.{Ran};

use floats::Parts;
use lanes::Numbers;

#[unsafe(no_mangle)]
pub extern "C" fn probe_abs(x: f32) -> f32
    ensures { result ≡ abs_of x }
{
    floats::abs(x)
}

#[unsafe(no_mangle)]
pub extern "C" fn probe_sqrt(x: f32) -> f32
    ensures { result ≡ sqrt_of x }
{
    floats::sqrt(x)
}

#[unsafe(no_mangle)]
pub extern "C" fn probe_floor(x: f32) -> f32
    ensures { result ≡ floor_of x }
{
    floats::floor(x)
}

#[unsafe(no_mangle)]
pub extern "C" fn probe_sign_bit(x: f32) -> f32
    ensures { result ≡ sign_bit x }
{
    floats::sign_bit(x)
}

#[unsafe(no_mangle)]
pub extern "C" fn probe_above(x: f32) -> f32
    ensures { result ≡ above_of x }
{
    lanes::above(x)
}

#[unsafe(no_mangle)]
pub extern "C" fn probe_sign(x: f32) -> f32
    ensures { result ≡ sign_of x }
{
    lanes::sign(x)
}

#[unsafe(no_mangle)]
pub extern "C" fn probe_smoothstep(x: f32) -> f32
    ensures { result ≡ smoothstep_of x }
{
    lanes::smoothstep(x)
}

#[unsafe(no_mangle)]
pub extern "C" fn probe_ln(x: f32) -> f32
    ensures { result ≡ ln_of x }
{
    lanes::ln(x)
}

#[unsafe(no_mangle)]
pub extern "C" fn probe_cast_word(x: f32) -> u32
    ensures { result ≡ cast_word x }
{
    floats::cast_word(x)
}

#[unsafe(no_mangle)]
pub extern "C" fn probe_cast_usize(x: f32) -> usize
    ensures { result ≡ to_unsigned 64 x }
{
    floats::cast_usize(x)
}

#[unsafe(no_mangle)]
pub extern "C" fn probe_nearest_u32(n: u32) -> f32
    ensures { result ≡ of_int binary32 (pos n) }
{
    floats::nearest_u32(n)
}

#[unsafe(no_mangle)]
pub extern "C" fn probe_nearest_i32(n: u32) -> f32
    ensures { result ≡ of_int binary32 (as_signed n) }
{
    floats::nearest_i32(n)
}

#[unsafe(no_mangle)]
pub extern "C" fn probe_to_word(x: f32) -> u32
    ensures { result ≡ to_word x }
{
    lanes::to_word(x)
}

#[unsafe(no_mangle)]
pub extern "C" fn probe_signed(word: u32) -> f32
    ensures { result ≡ signed_of word }
{
    lanes::signed(word)
}

#[unsafe(no_mangle)]
pub extern "C" fn probe_add_words(a: u32, b: u32) -> u32
    ensures { result ≡ add_words a b }
{
    lanes::add_words(a, b)
}

#[unsafe(no_mangle)]
pub extern "C" fn probe_pick_word(mask: f32, a: u32, b: u32) -> u32
    ensures { result ≡ pick_word mask a b }
{
    lanes::pick_word(mask, a, b)
}

#[unsafe(no_mangle)]
pub extern "C" fn probe_min(x: f32, other: f32) -> f32
    ensures { result ≡ min_of x other }
{
    lanes::min(x, other)
}

#[unsafe(no_mangle)]
pub extern "C" fn probe_max(x: f32, other: f32) -> f32
    ensures { result ≡ max_of x other }
{
    lanes::max(x, other)
}

#[unsafe(no_mangle)]
pub extern "C" fn probe_mul_add(x: f32, mul: f32, add: f32) -> f32
    ensures { result ≡ mul_add x mul add }
{
    lanes::mul_add(x, mul, add)
}

#[unsafe(no_mangle)]
pub extern "C" fn probe_pick(mask: f32, a: f32, b: f32) -> f32
    ensures { result ≡ pick_of mask a b }
{
    lanes::pick(mask, a, b)
}

#[unsafe(no_mangle)]
pub extern "C" fn probe_clamp(x: f32, lo: f32, hi: f32) -> f32
    ensures { result ≡ clamp_of x lo hi }
{
    lanes::clamp(x, lo, hi)
}

#[unsafe(no_mangle)]
pub extern "C" fn probe_sin_cycles(numbers: Numbers, x: f32) -> f32
    ensures { result ≡ sin_cycles numbers.sin x }
{
    lanes::sin_cycles(numbers, x)
}

#[unsafe(no_mangle)]
pub extern "C" fn probe_cos_cycles(numbers: Numbers, x: f32) -> f32
    ensures { result ≡ cos_cycles numbers.sin x }
{
    lanes::cos_cycles(numbers, x)
}

#[unsafe(no_mangle)]
pub extern "C" fn probe_atan(numbers: Numbers, x: f32) -> f32
    ensures { result ≡ atan_of numbers.atan x }
{
    lanes::atan(numbers, x)
}

#[unsafe(no_mangle)]
pub extern "C" fn probe_tan(numbers: Numbers, x: f32) -> f32
    ensures { result ≡ tan_of numbers.sin x }
{
    lanes::tan(numbers, x)
}

#[unsafe(no_mangle)]
pub extern "C" fn probe_split(x: f32) -> Parts
    ensures { result ≡ split_of x }
{
    floats::split(x)
}

// 1 for true.
#[unsafe(no_mangle)]
pub extern "C" fn probe_any(x: f32) -> u32
    ensures { result ≡ any_word x }
{
    u32::from(lanes::any(x))
}

// 0 where the table is too short.
#[tactic(auto, unfolding(crate::specs::Leaves::lookup_or_zero))]
#[unsafe(no_mangle)]
pub extern "C" fn probe_lookup(table: &[f32], x: f32) -> f32
    ensures { result ≡ lookup_or_zero table.now x }
{
    if table.len() < 1025 {
        0.0
    } else {
        lanes::lookup(table, x)
    }
}

// One of the leaves that read the table of powers, by C's number; `x` for any other number. A list of functions would
// have the same rows, and be a list of pointers.
#[tactic(auto, unfolding(crate::specs::Leaves::powers_leaf))]
fn powers_leaf(leaf: u32, x: f32) -> f32
    ensures { result ≡ powers_leaf leaf x }
{
    match leaf {
        0 => floats::exp2(x),
        1 => lanes::tanh(x),
        2 => lanes::exp(x),
        3 => lanes::ln_cosh(x),
        _ => x,
    }
}

// The leaf at each of `xs`, as far as `out` has room; how many they are. By index: of what is written through a
// `zip` a proof knows nothing.
#[unsafe(no_mangle)]
pub extern "C" fn probe_powers_run(leaf: u32, xs: &[f32], out: &mut [f32]) -> usize
    ensures value { result ≡ min (length xs.now) (length out.old) }
    ensures ran { Ran (powers_leaf_at leaf xs.now) out.old out.new result }
{
    let n = xs.len().min(out.len());
    for i in 0..n {
        out[i] = powers_leaf(leaf, xs[i]);
    }
    n
}
