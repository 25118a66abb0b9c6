// Replays the oracle's stored answers (stdin, a line each) and prints how many of them the library
// gives, and of document 01's boundary values and of known patch files how many are kept: "P of T" in all. The
// lines are those of `leaf_vectors`, `phase_vectors`, `wave_vectors`, `decimate_vectors`, `single_vectors`,
// `block_vectors`, `picture_vectors`, `file_vectors` and `level_vectors` of oracle/programs, which has their format;
// the last two are models'. Runs of the block run are replayed twice, the second time by lanes' calls.
#![tactic(auto)]

mod blocks;
mod boundaries;
mod line;
mod renders;
mod settings;

use answers::answer::answer;
use answers::runs::{Hashed, ModesRun, ran, table};
use blocks::block_hash;
use boundaries::{BOUNDARIES, boundaries_kept};
use call_answers::block_cells::curve_of;
use call_answers::singles::{reads_hash, samples_hash};
use call_answers::stretches::{spans_hash, stretches_hash};
use file_answers::examples::{EXAMPLES, examples_kept};
use file_answers::runs::file_hash;
use level_answers::searches::level_hash;
use line::{LENGTH, Line};
use picture_answers::pictures::picture_hash;
use renders::Calls;
use std::io;
use std::io::Read;

// The lines that are read at the most.
const LINES: usize = 100000;

// The operation of the block run's runs.
const BLOCK: u32 = 0x60;

#[derive(Clone, Copy)]
struct Tally {
    passed: u64,
    total: u64,
}

impl Tally {
    fn one(passed: bool) -> Tally {
        Tally {
            passed: u64::from(passed),
            total: 1,
        }
    }

    // A run counts as many as it has and passes whole.
    fn whole(run: Hashed, hash: u64) -> Tally {
        Tally {
            passed: if run.hash == hash { run.count } else { 0 },
            total: run.count,
        }
    }

    // Counts are kept below 2^63 by the number of lines.
    fn added(self, more: Tally) -> Tally {
        Tally {
            passed: self.passed.wrapping_add(more.passed),
            total: self.total.wrapping_add(more.total),
        }
    }
}

// A run of cases; from 0x50 on they are calls about one lane or about a block's spans, about a block's ranges,
// pictures, patch files, or levels. An operation is the lines' number: an enum of them would be this table a second
// time.
fn hashed(table: &[f32; 1025], op: u32, words: [u32; 2]) -> Hashed {
    let run = ModesRun::new(words);
    let hash = match op {
        0x00..=0x4f => return ran(table, op, words),
        0x50 => reads_hash(table, run),
        0x51 => samples_hash(run),
        0x52 => spans_hash(run),
        BLOCK => block_hash(table, run, Calls::Block),
        0x61 => picture_hash(&curve_of(table, run.seed), run),
        0x62 => file_hash(run),
        0x63 => level_hash(run),
        _ => stretches_hash(run),
    };
    Hashed {
        count: u64::from(run.count),
        hash,
    }
}

// A run of the block run once more, by lanes' calls: the hash is the same.
fn hashed_by_lanes(table: &[f32; 1025], words: [u32; 2]) -> Hashed {
    let run = ModesRun::new(words);
    Hashed {
        count: u64::from(run.count),
        hash: block_hash(table, run, Calls::Lanes),
    }
}

// One line: an answer, or a run of random ones.
fn replay(table: &[f32; 1025], line: Line) -> Tally {
    let [a, b, c, d] = line.words;
    let op = u32::from(line.op);
    let Some(op) = op.checked_sub(0x80) else {
        return Tally::one(answer(table, op, [a, b, c]) == d);
    };
    let hash = (u64::from(c) << 32) + u64::from(d);
    let run = Tally::whole(hashed(table, op, [a, b]), hash);
    if op == BLOCK {
        run.added(Tally::whole(hashed_by_lanes(table, [a, b]), hash))
    } else {
        run
    }
}

// What is kept of values that no line has.
fn kept() -> Tally {
    let boundaries = Tally {
        passed: boundaries_kept(),
        total: BOUNDARIES,
    };
    let examples = Tally {
        passed: examples_kept(),
        total: EXAMPLES,
    };
    boundaries.added(examples)
}

fn main(rt: HostRuntime) -> io::Result<()> {
    let table = table();
    let mut tally = kept();
    // At the most so many lines: a turn reads its own, and nothing is counted through.
    for _ in 0..LINES {
        let mut bytes = [0; LENGTH];
        // An input that ends inside a line, or cannot be read, ends with the line before.
        if rt.stdin().read_exact(&mut bytes).is_err() {
            break;
        }
        tally = tally.added(replay(&table, Line::new(bytes)));
    }
    println!(rt; "{} of {}", tally.passed, tally.total)
}
