// The decimal numbers on a line.
ghost use Rattle.std.specs.Prelude.{◌≡◌, ◌<◌, length};
ghost use Rattle.text.specs.Decimal.{blank, digits, number_of, seven_of};

use arrayvec::ArrayVec;
use std::str;

fn is_blank(b: &u8) -> bool
    ensures { result ≡ blank b.now }
{
    matches!(b, b' ' | b'\t' | b'\r')
}

fn is_digits(word: &[u8]) -> bool
    ensures { result ≡ digits word.now }
{
    word.iter().all(|b| b.is_ascii_digit())
}

// A word's number, below 2^32. `parse` alone would take a sign.
#[tactic(auto, using(crate::proofs::NumberLaws::digits_utf8, crate::proofs::NumberLaws::number_none, crate::proofs::NumberLaws::number_parsed, std::proofs::lemmas::Grind::common_steps))]
fn number(word: &[u8]) -> Option<u32>
    requires { 0 < length word.now }
    ensures { result ≡ number_of word.now }
{
    if !is_digits(word) {
        return None;
    }
    str::from_utf8(word).ok()?.parse().ok()
}

// The numbers of a line that has seven, each below 2^32, and nothing else but blanks.
pub fn seven_of(line: &[u8]) -> Option<[u32; 7]>
    ensures { result ≡ seven_of line.now }
{
    let mut values = ArrayVec::<u32, 7>::new();
    for word in line.split(is_blank).filter(|word| !word.is_empty()) {
        values.try_push(number(word)?).ok()?;
    }
    values.into_inner().ok()
}
