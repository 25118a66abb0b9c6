// The lent cycle, read between two of its entries.
ghost use Rattle.std.specs.Prelude.{◌≡◌, ◌<◌, ◌≤◌, length, IfOk, IfErr};
ghost use Rattle.reads.specs.Reads.{fraction_of, cycle_at, read_sum};

use crate::lists::LaneReads;
use lanes::add_words;
use limits::{CYCLE_LENGTH, Refusal};

// At least 2,048 samples, of which those past them are not read.
#[derive(Clone, Copy)]
pub struct Cycle<'a> {
    pub samples: &'a [f32],
    ghost whole: { 2048 ≤ length samples.now },
}

// How far a word lies past its entry, in entries. From 4 to 8 the patterns of f32 count 2^-21, so that the
// word's low 21 bits need no cast and no division, and 4 comes off exactly.
fn fraction(word: u32) -> f32
    ensures { result ≡ fraction_of word }
{
    f32::from_bits(0x4080_0000 + word % 0x20_0000) - 4.0
}

impl<'a> Cycle<'a> {
    // Too few samples are refused.
    pub fn new(samples: &'a [f32]) -> Result<Cycle<'a>, Refusal>
        ensures ok { IfOk result (λ cycle. cycle.samples.now ≡ samples.now × 2048 ≤ length samples.now) }
        ensures err { IfErr result (λ refusal. refusal ≡ Refusal.ShortRead × length samples.now < 2048) }
    {
        if samples.len() < CYCLE_LENGTH {
            return Err(Refusal::ShortRead);
        }
        Ok(Cycle { samples })
    }

    // The cycle at a phase word: between the word's entry and the next, and after the last comes the first.
    pub fn read(self, word: u32) -> f32
        ensures { result ≡ cycle_at self.entry.samples.now word }
    {
        let t = fraction(word);
        let first = self.samples[(word / 0x20_0000) as usize];
        // A word goes round as the cycle does.
        let next = self.samples[(add_words(word, 0x20_0000) / 0x20_0000) as usize];
        first + (next - first) * t
    }

    // The sum of a list's reads: of count 0 the first word's with no gain, otherwise the products from the
    // first on, in list order. Each read has its own place, so that the list can stay in registers.
    pub fn sum(self, reads: LaneReads) -> f32
        requires { reads.count ≤ 4 }
        ensures { result ≡ read_sum self.entry.samples.now reads }
    {
        let phase = reads.phase;
        let gain = reads.gain;
        let count = reads.count;
        if count == 0 {
            return self.read(phase[0]);
        }
        let sum = gain[0] * self.read(phase[0]);
        if count == 1 {
            return sum;
        }
        let sum = sum + gain[1] * self.read(phase[1]);
        if count == 2 {
            return sum;
        }
        let sum = sum + gain[2] * self.read(phase[2]);
        if count == 3 {
            return sum;
        }
        sum + gain[3] * self.read(phase[3])
    }
}
