// The sign of an f32, off its bit pattern.
ghost use Rattle.std.specs.Prelude.{◌≡◌};
ghost use Rattle.floats.specs.Sign.{abs_of, sign_bit};

// The sign bit off. A NaN, which has no pattern of its own, stays.
#[tactic(auto, unfolding(crate::specs::Sign::abs_of), using(crate::proofs::Nan::is_nan_lem, crate::proofs::Nan::no_nan_T, crate::proofs::Signs::abs_bits, crate::proofs::Signs::abs_no_nan, crate::proofs::Read::held))]
pub fn abs(x: f32) -> f32
    ensures { result ≡ abs_of x }
{
    if x != x {
        x
    } else {
        f32::from_bits(f32::to_bits(x) % 0x8000_0000)
    }
}

// 1 where the sign bit is set (negative numbers and -0), else 0; a NaN gives 0. The bit times the
// pattern of 1.0 is the answer's pattern, with no branch on the sign.
#[tactic(auto, unfolding(crate::specs::Sign::sign_bit), using(crate::proofs::Nan::is_nan_lem, crate::proofs::Nan::no_nan_T, crate::proofs::Signs::bit_le, crate::proofs::Signs::bit_no_nan, crate::proofs::Signs::sign_by_bit, crate::proofs::Read::held, crate::proofs::Read::bits_lt))]
pub fn sign_bit(x: f32) -> f32
    ensures { result ≡ sign_bit x }
{
    if x != x {
        0.0
    } else {
        f32::from_bits(f32::to_bits(x) / 0x8000_0000 * 0x3f80_0000)
    }
}
