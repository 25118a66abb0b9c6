// Casts between floats and integers, as Rust's `as` makes them: a float's saturate, and NaN gives 0;
// an integer gives the nearest float, ties to even. They go by the bit pattern; where they choose,
// both values are at hand, so that the compiler need not branch, but on what is out of range.
ghost use Rattle.std.specs.Prelude.{◌≡◌, ◌*◌, ◌/◌, ◌^◌, ◌<◌, pos};
ghost use Rattle.std.specs.Float.{binary32};
ghost use Rattle.std.specs.Float.Ieee.{of_int, to_unsigned};
ghost use Rattle.floats.specs.Casts.{cast_word, as_signed};
ghost use Rattle.floats.specs.Pattern.{significand_of, exponent_of};

// The whole part of the positive f32 below 2^64 with the pattern b. With the significand at the top
// of a u64, an exponent field of 190 takes it down by no place, one of 127, for 1 to 2, by 63. Below
// 1 the significand counts as 0.
#[tactic(auto, using(crate::proofs::Casts::whole_part_is))]
fn whole_part(b: u32) -> u64
    requires { b < 0x5f80_0000 }
    ensures { result ≡ significand_of b * 2 ^ exponent_of b / 2 ^ 149 }
{
    let field = b / 0x80_0000;
    let some = (field + 129) / 256;
    let digits = ((b % 0x80_0000 + 0x80_0000) * some) as u64;
    digits * 0x100_0000_0000 >> (190 - field) % 64
}

// The same below 2^31, and quicker. One place lower in the u64, the significand of a number below 1
// goes out by 63 places, so that no more are needed.
#[tactic(auto, using(crate::proofs::Casts::short_part_is))]
fn short_part(b: u32) -> u64
    requires { b < 0x4f00_0000 }
    ensures { result ≡ significand_of b * 2 ^ exponent_of b / 2 ^ 149 }
{
    let digits = (b % 0x80_0000 + 0x80_0000) as u64;
    digits * 0x80_0000_0000 >> u32::min(63, 189 - b / 0x80_0000)
}

// `x as i32 as u32`. 0x4f00_0000 is the pattern of 2^31.
pub fn cast_word(x: f32) -> u32
    ensures { result ≡ cast_word x }
{
    if x != x {
        return 0;
    }
    let b = f32::to_bits(x);
    let c = b % 0x8000_0000;
    if c >= 0x4f00_0000 {
        return if b < 0x8000_0000 {
            0x7fff_ffff
        } else {
            0x8000_0000
        };
    }
    let size = short_part(c);
    let up = size as u32;
    let down = ((0x1_0000_0000 - size) % 0x1_0000_0000) as u32;
    if b < 0x8000_0000 { up } else { down }
}

// `x as usize`. A pattern with the sign set counts as that of 0, and 0x5f7f_ffff is that of the
// largest f32 below 2^64.
#[tactic(auto, using(crate::proofs::Casts::unsigned_of_nan, crate::proofs::Casts::unsigned_small, crate::proofs::Casts::unsigned_large, crate::proofs::Nan::is_nan_lem, crate::proofs::Nan::no_nan_T, crate::proofs::Read::read, crate::proofs::Read::bits_lt, crate::proofs::Read::read_no_nan))]
pub fn cast_usize(x: f32) -> usize
    ensures { result ≡ to_unsigned 64 x }
{
    if x != x {
        return 0;
    }
    let b = f32::to_bits(x);
    let c = b * (1 - b / 0x8000_0000);
    let size = whole_part(c.min(0x5f7f_ffff));
    if c < 0x5f80_0000 {
        size as usize
    } else {
        0xffff_ffff_ffff_ffff
    }
}

// `n as f32`. From 2^39 on the patterns of f32 count 65,536s, from 2^23 on ones: so both halves of n
// become floats by a sum of whole numbers. 2^39 and 2^23 come off exactly, and only the last sum
// rounds.
#[tactic(auto, using(crate::proofs::Halves::unsigned, crate::proofs::Patterns::bits_no_nan))]
pub fn nearest_u32(n: u32) -> f32
    ensures { result ≡ of_int binary32 (pos n) }
{
    f32::from_bits(0x5300_0000 + n / 65536) - 549764202496.0
        + f32::from_bits(0x4b00_0000 + n % 65536)
}

// `n as i32 as f32`: 2^31 is added to n, modulo 2^32, and comes off with 2^39 and 2^23.
#[tactic(auto, using(crate::proofs::Halves::signed, crate::proofs::Patterns::bits_no_nan))]
pub fn nearest_i32(n: u32) -> f32
    ensures { result ≡ of_int binary32 (as_signed n) }
{
    let high = f32::from_bits(0x5300_0000 + (n / 65536 + 32768) % 65536);
    high - 551911686144.0 + f32::from_bits(0x4b00_0000 + n % 65536)
}
