// The largest whole number that is not above x.
ghost use Rattle.std.specs.Prelude.{◌≡◌, cond};
ghost use Rattle.std.specs.Float.{binary32};
ghost use Rattle.std.specs.Float.Ieee.{eq, lt, neg, sub};
ghost use Rattle.floats.specs.F32.{bits, 0f, 1f};
ghost use Rattle.floats.specs.Floor.{floor_of};

// 2^23, from which on every f32 is a whole number. A smaller one plus it, of the same sign, is
// rounded to a whole number.
const WHOLE: f32 = 8388608.0;

// 2^22 and 3 × 2^22, for `floor`.
const SMALL: f32 = 4194304.0;

const SHIFT: f32 = 12582912.0;

fn away(x: f32) -> f32
    ensures { result ≡ cond (lt x 0f) (neg (bits 0x4b00_0000)) (bits 0x4b00_0000) }
{
    if x < 0.0 { -WHOLE } else { WHOLE }
}

fn not_above(x: f32, t: f32) -> f32
    ensures { result ≡ cond (lt x t) (sub binary32 t 1f) t }
{
    if x < t { t - 1.0 } else { t }
}

// From the nearest whole number t, and one less where that is above x. A whole x stays, -0 too.
fn from_nearest(x: f32, t: f32) -> f32
    ensures { result ≡ cond (eq t x) x (cond (lt x t) (sub binary32 t 1f) t) }
{
    let r = not_above(x, t);
    if t == x { x } else { r }
}

// For an x of any size, by a sum of its own sign.
fn floor_by_sign(x: f32) -> f32
    ensures { result ≡ floor_of x }
{
    if x < WHOLE {
        if x > -WHOLE {
            let w = away(x);
            return from_nearest(x, x + w - w);
        }
    }
    x
}

// A small x plus 3 × 2^22 lies from 2^23 to 2^24, whatever its sign, and is rounded to a whole
// number: no step waits for the sign.
pub fn floor(x: f32) -> f32
    ensures { result ≡ floor_of x }
{
    if x < SMALL {
        if x > -SMALL {
            return from_nearest(x, x + SHIFT - SHIFT);
        }
    }
    floor_by_sign(x)
}
