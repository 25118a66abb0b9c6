// Phase words: 2^32 is one cycle.
ghost use Rattle.std.specs.Prelude.{◌≡◌, ◌<◌, length};
ghost use Rattle.lanes.specs.Word.{add_words, pick_word, signed_of, to_word, lookup_of};

use crate::lane::min;
use crate::maths::clamp;
use floats::{cast_usize, cast_word, floor, nearest_i32};

// 2^32.
const TWO_32: f32 = 4294967296.0;

// Added, wrapping.
#[tactic(auto, unfolding(crate::specs::Word::add_words))]
pub fn add_words(a: u32, b: u32) -> u32
    ensures { result ≡ add_words a b }
{
    a.wrapping_add(b)
}

// `b` where `mask` is 1, `a` where it's 0.
#[tactic(auto, unfolding(crate::specs::Word::pick_word, crate::specs::Word::add_words))]
pub fn pick_word(mask: f32, a: u32, b: u32) -> u32
    ensures { result ≡ pick_word mask a b }
{
    a.wrapping_add(b.wrapping_sub(a).wrapping_mul(cast_word(mask)))
}

// A phase word read as a signed fraction of a cycle, -1/2 to 1/2.
#[tactic(auto, unfolding(crate::specs::Word::signed_of))]
pub fn signed(word: u32) -> f32
    ensures { result ≡ signed_of word }
{
    nearest_i32(word) * (1.0 / TWO_32)
}

// Cycles `x` (any number within ±2^23) wrapped to a phase word.
#[tactic(auto, unfolding(crate::specs::Word::to_word), using(floats::specs::Steps::steps))]
pub fn to_word(x: f32) -> u32
    ensures { result ≡ to_word x }
{
    let wrapped = x - floor(x + 0.5);
    let scaled = wrapped * TWO_32;
    if scaled >= 2147483648.0 {
        0x8000_0000
    } else {
        cast_word(scaled)
    }
}

// `table` (1,025 values spanning 0 to 1) read at `x`, linear between its values; `x` is clamped to
// 0 to 1.
pub fn lookup(table: &[f32], x: f32) -> f32
    requires { 1024 < length table.now }
    ensures { result ≡ lookup_of table.now x }
{
    let at = clamp(x, 0.0, 1.0) * 1024.0;
    let whole = min(floor(at), 1023.0);
    let i = cast_usize(whole);
    (table[i + 1] - table[i]) * (at - whole) + table[i]
}
