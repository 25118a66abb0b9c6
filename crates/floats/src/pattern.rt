// An f32 taken apart by its bit pattern.
ghost use Rattle.std.specs.Prelude.{◌≡◌};
ghost use Rattle.floats.specs.Pattern.{significand_of, exponent_of, split_of};

use crate::cast::nearest_u32;

// The significand of a finite f32's pattern, with the leading one: the f32's size is
// significand × 2^(exponent - 149).
pub fn significand(b: u32) -> u32
    ensures { result ≡ significand_of b }
{
    if b % 2147483648 / 8388608 == 0 {
        b % 8388608
    } else {
        8388608 + b % 8388608
    }
}

pub fn exponent(b: u32) -> u32
    ensures { result ≡ exponent_of b }
{
    let field = b % 2147483648 / 8388608;
    if field == 0 { 0 } else { field - 1 }
}

// What `split` of the Rust returns as a pair.
#[repr(C)]
#[derive(Clone, Copy)]
pub struct Parts {
    pub exponent: f32,
    pub mantissa: f32,
}

// For positive normal numbers: the exponent, unbiased, and the mantissa, 1 to 2. Of any other
// number what the same steps give; of a NaN two NaNs.
pub fn split(x: f32) -> Parts
    ensures { result ≡ split_of x }
{
    if x != x {
        Parts {
            exponent: x,
            mantissa: x,
        }
    } else {
        let biased = f32::to_bits(x) >> 23;
        let scale = f32::from_bits((766 - biased) % 512 * 0x80_0000);
        Parts {
            exponent: nearest_u32(biased) - 127.0,
            mantissa: x * scale,
        }
    }
}
