// The phase side: a seed's table of slopes, and runs of read lists of two slots, whose cases are remade from
// a seed.
use crate::answer::float;
use crate::cells::{chosen, unit};
use crate::hash::Hash;
use crate::random::Random;
use crate::runs::{ModesRun, hash_of};
use curve::Curve;
use floats::nearest_u32;
use phase::{MapSetting, Slot, Tables};
use reads::{LaneReads, ReadList};

// An entry of the table that the steepest slope is taken of: with an odd seed some are NaN and some
// negative.
fn slope_entry(seed: u32, draw: u32, size: f32) -> f32 {
    let x = nearest_u32(draw >> 8) / size;
    if seed % 2 == 0 {
        return x;
    }
    match draw % 4 {
        0 => f32::NAN,
        1 => -x,
        _ => x,
    }
}

// The table of a seed: 1,025 numbers from 0 to 2^-6 or less.
pub fn slope_table(seed: u32) -> [f32; 1025] {
    let size = float((157 + seed / 2 % 8) * 0x80_0000);
    Random::new(seed).cells(|draw| slope_entry(seed, draw, size))
}

// 0, 1/2, 1, or a number from 0 to 1.
pub fn fraction(draw: u32) -> f32 {
    match draw % 8 {
        0 => 0.0,
        1 => 0.5,
        2 => 1.0,
        _ => unit(draw),
    }
}

// A half width, 2^-14 to 4, every other time a power of 2.
fn half_width(draw: u32) -> f32 {
    let digits = if draw / 16 % 2 == 0 { 0 } else { draw >> 9 };
    float((128 - draw % 16) * 0x80_0000 | digits)
}

// What slot 1 stretches slot 0's half width by: 1, or 1/16 to 16.
pub fn inner_stretch(draw: u32) -> f32 {
    if draw % 4 == 0 {
        1.0
    } else {
        float((123 + draw / 4 % 8) * 0x80_0000 | (draw >> 9))
    }
}

// Up to 128 words on from `word` or back from it.
pub fn around(word: u32, draw: u32) -> u32 {
    word.wrapping_add(draw % 256).wrapping_sub(128)
}

// A whole number of n-ths of a cycle, n from 1 to 1,024.
fn nth(draw: u32) -> u32 {
    let n = u64::from(draw / 256 % 1024 + 1);
    let whole = u64::from(draw / 0x4_0000);
    (whole * 0x1_0000_0000 / n % 0x1_0000_0000) as u32
}

// A word: any, or one where a map has an edge.
fn word(how: u32, draw: u32, amount: u32) -> u32 {
    match how % 8 {
        0 => around(draw & 0xc000_0000, draw),
        1 => draw | 0xffff_ff80,
        2 => 0x7fff_ffc0 + draw % 64,
        3 => around(draw & 0xffe0_0000, draw),
        4 => around(nth(draw), draw),
        5 => around((amount & 0xffff_ff00).wrapping_neg(), draw),
        _ => draw,
    }
}

// The read list of two slots, without offsets, at drawn amounts: slot 1 maps first, then slot 0 with half
// width times `inner`.
#[tactic(auto, using(reads::proofs::Few::start_few, phase::proofs::Few::apply_few))]
fn drawn_reads(table: &[f32; 1025], run: ModesRun, random: &mut Random) -> LaneReads {
    let seed = run.seed;
    let [
        how,
        place,
        amount0,
        amount1,
        character0,
        character1,
        half,
        inner,
    ] = random.draws::<8>();
    let slot0 = Slot {
        mode: run.mode0,
        character: chosen(seed, how >> 12, character0, fraction(character0)),
    };
    let slot1 = Slot {
        mode: run.mode1,
        character: chosen(seed, how >> 14, character1, fraction(character1)),
    };
    let start = ReadList::start(word(how, place, amount0));
    let amount0 = chosen(seed, how >> 8, amount0, fraction(amount0));
    let amount1 = chosen(seed, how >> 10, amount1, fraction(amount1));
    let half = chosen(seed, how >> 16, half, half_width(half));
    let inner = chosen(seed, how >> 18, inner, inner_stretch(inner));
    let tables = Tables {
        numbers: lanes::rust_numbers(),
        curve: Curve { values: table },
    };
    let first = phase::apply(tables, MapSetting::new(slot1, amount1, half), start);
    let second = phase::apply(tables, MapSetting::new(slot0, amount0, half * inner), first);
    LaneReads::from(second)
}

// A read list as nine words put to the hash: its words, its gains' patterns, its count.
pub fn put_reads(hash: &mut Hash, reads: LaneReads) {
    for word in reads.phase {
        hash.put(word);
    }
    hash.put_floats(&reads.gain);
    hash.put((reads.count % 0x1_0000_0000) as u32);
}

// Read lists of two modes.
pub(crate) fn reads_hash(table: &[f32; 1025], run: ModesRun) -> u64 {
    hash_of(run.count, Random::new(run.seed), |random, hash| {
        put_reads(hash, drawn_reads(table, run, random));
    })
}
