// The square root: the f32 nearest the exact root, ties to even.
ghost use Rattle.std.specs.Prelude.{◌≡◌, ℕ, ◌-◌, ◌*◌, ◌^◌, ◌≤◌, ◌<◌, true, false};
ghost use Rattle.std.specs.Float.{binary32};
ghost use Rattle.std.specs.Float.Ieee.{of_bits, is_nan};
ghost use Rattle.std.specs.Float.Ieee.Exact.{HasValue};
ghost use Rattle.floats.specs.Sqrt.{sqrt_of, root_units, IsRoot};
ghost use Rattle.floats.specs.Promises.{NearestRoot, RootPattern};

// The factors f × (f + a) + b and c × f + d - k × f × f, whose product is near the root of f.
#[derive(Clone, Copy)]
struct Factors {
    a: f64,
    b: f64,
    k: f64,
    c: f64,
    d: f64,
}

// For each eighth of 1 to 2. The product is within 1 in 2^29 of the root.
static FACTORS: [Factors; 8] = [
    Factors {
        a: -1.9770130511,
        b: 8.9363207621,
        k: 0.031666202797,
        c: 0.12578902088,
        d: 0.031516249737,
    },
    Factors {
        a: -2.2094827741,
        b: 11.165602973,
        k: 0.021445320429,
        c: 0.095215961816,
        d: 0.026670379566,
    },
    Factors {
        a: -2.4419633229,
        b: 13.642582937,
        k: 0.015102859045,
        c: 0.074117515985,
        d: 0.022950675603,
    },
    Factors {
        a: -2.6744518674,
        b: 16.367260717,
        k: 0.010981751889,
        c: 0.059027711308,
        d: 0.020021944516,
    },
    Factors {
        a: -2.9069464852,
        b: 19.339636354,
        k: 0.0082006103953,
        c: 0.047913016319,
        d: 0.017667197604,
    },
    Factors {
        a: -3.1394458246,
        b: 22.559709873,
        k: 0.0062632236553,
        c: 0.039521874211,
        d: 0.015740410458,
    },
    Factors {
        a: -3.3719489075,
        b: 26.02748129,
        k: 0.0048766995019,
        c: 0.033052678616,
        d: 0.014140081518,
    },
    Factors {
        a: -3.6044550086,
        b: 29.742950618,
        k: 0.0038610970102,
        c: 0.027974389499,
        d: 0.012793694457,
    },
];

// 2^23, or 2^23 times the root of 2 where the exponent is odd. `even` is 1 or 0 and no bool, since `root_bits` moves
// the digits by it too.
fn turn(even: u32) -> f64 {
    if even == 1 {
        8388608.0
    } else {
        11863283.203031
    }
}

// 2^52 + 2^23 at least, which a NaN gives too.
fn in_range(s: f64) -> f64
    ensures { is_nan result ≡ false }
{
    if s > 4503599635759104.0 {
        s
    } else {
        4503599635759104.0
    }
}

// A whole number near 2^23 times the root of the number f, from 1 to 2, with this fraction, or of
// 2 × f. What is worked out from the guess is right for any; a good one makes it quick. No division
// and few steps that wait for each other: callers wait for the root. A float plus 2^52 has its
// nearest whole number in its last digits.
#[tactic(auto, using(crate::proofs::Patterns::wide_no_nan))]
fn guess(fraction: u32, even: u32) -> u64
    requires { fraction < 2 ^ 23 }
    ensures { result < 2 ^ 32 }
{
    let f = f64::from_bits((fraction as u64) * 0x2000_0000 + 0x3ff0_0000_0000_0000);
    let by = FACTORS[(fraction / 0x10_0000) as usize];
    let unit = turn(even);
    let root = (unit * f * (f + by.a) + unit * by.b) * (by.c * f + by.d - by.k * (f * f));
    f64::to_bits(in_range(root + 4503599627370496.0)) % 0x1_0000_0000
}

// The whole number nearest the root of n.
fn rounded_root(n: u64) -> u64
    requires { (2 ^ 46 ≤ n) × (n ≤ 2 ^ 48 - 2 ^ 24) }
    ensures { NearestRoot n result }
{
    let r = n.isqrt();
    if r * r + r < n { r + 1 } else { r }
}

// Whether r is that number.
fn is_nearest(n: u64, r: u64) -> bool
    requires fact_1 { (2 ^ 46 ≤ n) × (n ≤ 2 ^ 48 - 2 ^ 24) }
    requires fact_2 { r < 2 ^ 32 }
    ensures { result ≡ true → NearestRoot n r }
{
    r * r < n + r && n <= r * r + r
}

// The same, by a guess. Of 365 guesses 364 are the number, but near 1 every second one is off, by 1: then its neighbour
// is, and the loops of `isqrt` are for other guesses alone.
fn nearest_root(n: u64, near: u64) -> u64
    requires fact_1 { (2 ^ 46 ≤ n) × (n ≤ 2 ^ 48 - 2 ^ 24) }
    requires fact_2 { near < 2 ^ 32 }
    ensures { NearestRoot n result }
{
    if is_nearest(n, near) {
        return near;
    }
    let next = if n < near * near {
        near.saturating_sub(1)
    } else {
        (near + 1).min(0xffff_ffff)
    };
    if is_nearest(n, next) {
        return next;
    }
    rounded_root(n)
}

// The pattern of the root of m × 2^j smallest values, where m has 24 digits. Moved up by 23 or 24
// places, so that the power of two left over is even, m has a root of 24 digits.
fn root_bits(m: u32, j: u32) -> u32
    requires { (2 ^ 23 ≤ m) × (m < 2 ^ 24) × (j < 254) }
    ensures { RootPattern (m * 2 ^ j) result }
{
    let even = (j + 1) % 2;
    let near = guess(m - 8388608, even);
    let q = nearest_root((m as u64) << (24 - even), near);
    (j + 126) / 2 * 8388608 + (q as u32)
}

// The pattern of the root of b smallest values, a subnormal f32: 2^24 times as much has a root 2^12
// times as large.
fn small_root_bits(b: u32) -> u32
    requires { (0 < b) × (b < 2 ^ 23) }
    ensures { (result < 2139095040) × (of_bits binary32 result ≡ root_units b) }
{
    let up = u32::leading_zeros(b) - 8;
    root_bits(b << up, 24 - up) - 100663296
}

// The f32 nearest the root of x, ties to even: the definition's, and by squares alone the nearest to
// the root of a positive x, n / 2^149. The zeros and +infinity are their own roots.
pub fn sqrt(x: f32) -> f32
    ensures value { result ≡ sqrt_of x }
    ensures squares { (n : ℕ) → 0 < n → HasValue x false n (2 ^ 149) → IsRoot n result }
{
    if x != x {
        return x;
    }
    let b = f32::to_bits(x);
    if b < 2139095040 {
        if b >= 8388608 {
            return f32::from_bits(root_bits(8388608 + b % 8388608, b / 8388608 - 1));
        }
        if b > 0 {
            return f32::from_bits(small_root_bits(b));
        }
        return x;
    }
    if b > 2147483648 {
        return 0.0 / 0.0;
    }
    x
}
