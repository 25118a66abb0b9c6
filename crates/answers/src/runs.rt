// Runs of random cases, as a line of the vectors has them: the operation and two words.
ghost use Rattle.std.specs.Prelude.{◌≡◌};
ghost use Rattle.answers.specs.Hash.{nothing};

use crate::answer::answer;
use crate::cells::{tamed, unit};
use crate::decimations::decimate_hash;
use crate::hash::Hash;
use crate::phases::reads_hash;
use crate::random::Random;
use crate::waves::waves_hash;
use halfband::CallNumbers;

// `count` cases drawn from `seed`, of two modes where these count.
#[derive(Clone, Copy)]
pub struct ModesRun {
    pub mode0: u32,
    pub mode1: u32,
    pub seed: u32,
    pub count: u32,
}

impl ModesRun {
    // As a line's words have it.
    pub fn new(words: [u32; 2]) -> ModesRun {
        let [a, b] = words;
        let [_, _, mode0, mode1] = b.to_le_bytes();
        ModesRun {
            mode0: u32::from(mode0),
            mode1: u32::from(mode1),
            seed: a,
            count: b % 0x1_0000,
        }
    }
}

// A run's cases, and the hash of its answers.
#[derive(Clone, Copy)]
pub struct Hashed {
    pub count: u64,
    pub hash: u64,
}

// `count` cases, each drawn and put to the hash by `step`.
pub fn put_cases<F: FnMut(&mut Random, &mut Hash)>(
    count: u32,
    random: Random,
    hash: &mut Hash,
    mut step: F,
)
    requires { F.IsAlwaysCallable step }
    ensures { count ≡ 0 → hash.new ≡ hash.old }
{
    let mut random = random;
    // A count of draws: no element stands behind a turn.
    for _ in 0..count {
        step(&mut random, hash);
    }
}

// The hash of so many cases.
pub fn hash_of<F: FnMut(&mut Random, &mut Hash)>(count: u32, random: Random, step: F) -> u64
    requires { F.IsAlwaysCallable step }
    ensures { count ≡ 0 → result ≡ nothing }
{
    let mut hash = Hash::new();
    put_cases(count, random, &mut hash, step);
    hash.value
}

// Which inputs of an operation are words and no floats.
fn first_is_word(op: u32) -> bool {
    matches!(op, 0x0b | 0x0d | 0x1e..=0x1f | 0x27..=0x28 | 0x30..=0x34)
}

fn others_are_words(op: u32) -> bool {
    matches!(op, 0x0b..=0x0c)
}

// The answers of `op` to three draws each. An even seed draws floats of moderate size.
fn answers_hash(table: &[f32; 1025], op: u32, seed: u32, count: u32) -> u64 {
    let input = |is_word: bool, draw: u32| {
        if is_word || seed % 2 != 0 {
            draw
        } else {
            tamed(draw)
        }
    };
    hash_of(count, Random::new(seed), |random, hash| {
        let [a, b, c] = random.draws::<3>();
        let x = input(first_is_word(op), a);
        let y = input(others_are_words(op), b);
        let z = input(others_are_words(op), c);
        hash.put(answer(table, op, [x, y, z]));
    })
}

// One call of the decimator.
fn decimated(a: u32, b: u32) -> u64 {
    let [frames, active, lanes, factor] = b.to_le_bytes();
    let call = CallNumbers {
        factor: u32::from(factor),
        lanes: u32::from(lanes),
        active: u32::from(active),
        frames: u32::from(frames),
    };
    decimate_hash(a, call)
}

// Read lists and samples have two modes beside their count; samples have a mode and, in the other's place,
// whether they go through a slot. An operation is the lines' number, as in answer.rt.
pub fn ran(table: &[f32; 1025], op: u32, words: [u32; 2]) -> Hashed {
    let [a, b] = words;
    let run = ModesRun::new(words);
    let (count, hash) = match op {
        0x29 => (run.count, reads_hash(table, run)),
        0x36 => (run.count, waves_hash(run)),
        0x40 => (1, decimated(a, b)),
        _ => (b, answers_hash(table, op, a, b)),
    };
    Hashed {
        count: u64::from(count),
        hash,
    }
}

// The table that `lookup` reads: 1,025 numbers from 0 to 1, as an even seed's coefficients.
pub fn table() -> [f32; 1025] {
    Random::new(0x5eed).cells(unit)
}
