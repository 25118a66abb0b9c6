// The hash of what a run gives. `put` and its kin, here and in the files that make runs, add to a hash; they convert
// nothing. By hand, since std's `Hash` is not of floats and its `Hasher` takes bytes, not words.
ghost use Rattle.std.specs.Prelude.{◌≡◌};
ghost use Rattle.answers.specs.Hash.{nothing, with_word, with_float, with_floats};

use crate::answer::pattern;

// 64-bit FNV-1a, a word at a time.
#[derive(Clone, Copy)]
pub struct Hash {
    pub value: u64,
}

impl Hash {
    // Of nothing.
    pub fn new() -> Hash
        ensures { result.value ≡ nothing }
    {
        Hash {
            value: 0xcbf2_9ce4_8422_2325,
        }
    }

    pub fn put(&mut self, word: u32)
        ensures { self.new.value ≡ with_word self.old.value word }
    {
        self.value = (self.value ^ u64::from(word)).wrapping_mul(0x100_0000_01b3);
    }

    // A float by its pattern.
    pub fn put_float(&mut self, x: f32)
        ensures { self.new.value ≡ with_float self.old.value x }
    {
        self.put(pattern(x));
    }

    pub fn put_floats(&mut self, xs: &[f32])
        ensures { self.new.value ≡ with_floats self.old.value xs.now }
    {
        for x in xs {
            self.put_float(*x);
        }
    }
}
