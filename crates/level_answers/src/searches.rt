// Runs of searches for an amount: what each is made of is remade from a seed, and a hash takes what each
// answers. Some are made to be turned down.
use answers::cells::cell;
use answers::phases::fraction;
use answers::random::Random;
use answers::runs::{ModesRun, hash_of};
use answers::waves::sample;
use floats::nearest_u32;
use levels::{Found, Search, amount_for};
use wave::distort;

// The draws that a search is made of.
#[derive(Clone, Copy)]
struct Draws {
    how: u32,
    sample: u32,
    wanted: u32,
    tolerance: u32,
    amount: u32,
}

impl Draws {
    fn new(random: &mut Random) -> Draws {
        let [how, sample, wanted, tolerance, amount] = random.draws::<5>();
        Draws {
            how,
            sample,
            wanted,
            tolerance,
            amount,
        }
    }

    // The run's mode, or one that is turned down.
    fn mode(self, mode: u32) -> u32 {
        match self.how >> 27 {
            0 => 70,
            1 => 18,
            2 => 33,
            _ => mode,
        }
    }

    // 0, or a number from 0 to 1/64.
    fn tolerance(self, seed: u32) -> f32 {
        match self.how / 8 % 4 {
            0 => 0.0,
            _ => cell(seed, self.tolerance, fraction(self.tolerance) * 0.015625),
        }
    }

    // The amount that the wanted output is made at.
    fn hundredths(self) -> u32 {
        match self.amount >> 29 {
            0 => 0,
            1 => 10000,
            _ => self.amount % 10001,
        }
    }

    // The output at that amount, as far from it as the tolerance, or any float.
    fn wanted(self, seed: u32, mode: u32, x: f32, tolerance: f32) -> f32 {
        let out = output(mode, self.hundredths(), x);
        match self.how % 8 {
            0..=2 => out,
            3 => out + tolerance,
            4 => out - tolerance,
            _ => cell(seed, self.wanted, sample(self.wanted)),
        }
    }
}

// What a mode makes of a sample at an amount, which is made here by itself, so that the search's own is
// seen.
fn output(mode: u32, hundredths: u32, x: f32) -> f32 {
    let a = lanes::clamp(nearest_u32(hundredths) / 100.0, 0.0, 100.0) * 0.01;
    distort(lanes::rust_numbers(), mode, a, x)
}

fn found(run: ModesRun, d: Draws) -> Found {
    let seed = run.seed;
    let x = cell(seed, d.sample, sample(d.sample));
    let tolerance = d.tolerance(seed);
    let wanted = d.wanted(seed, run.mode0, x, tolerance);
    Found::from(amount_for(Search {
        numbers: lanes::rust_numbers(),
        mode: d.mode(run.mode0),
        sample: x,
        wanted,
        tolerance,
    }))
}

pub fn level_hash(run: ModesRun) -> u64 {
    hash_of(run.count, Random::new(run.seed), |random, hash| {
        let found = found(run, Draws::new(random));
        hash.put(found.number);
        hash.put(found.hundredths);
    })
}
