// The wave side: sequences of samples through one slot, which are remade from a seed.
use crate::answer::float;
use crate::cells::chosen;
use crate::hash::Hash;
use crate::phases::fraction;
use crate::random::Random;
use crate::runs::{ModesRun, hash_of};
use floats::{nearest_i32, nearest_u32};
use lanes::clamp;
use modes::numbers::VALVE;
use wave::{Filtered, Svf};

// What a slot shapes a sample with, but for its mode, and the state before it.
#[derive(Clone, Copy)]
struct Case {
    percent: f32,
    character: f32,
    source: Option<f32>,
    increment: f32,
    x: f32,
    state: Svf,
}

// What a case takes over from the one before it.
#[derive(Clone, Copy)]
struct Held {
    percent: f32,
    x: f32,
    state: Svf,
}

// 0, 50, 100, or a number from 0 to 128.
pub fn percent(draw: u32) -> f32 {
    match draw % 8 {
        0 => 0.0,
        1 => 50.0,
        2 => 100.0,
        _ => nearest_u32(draw >> 8) / 131072.0,
    }
}

// A number from -1 to 1.
pub fn sample(draw: u32) -> f32 {
    nearest_u32(draw >> 8) / 8388608.0 - 1.0
}

// By `how` the same sample as the last, one about 1 % off, or the drawn one.
fn near(how: u32, last: f32, x: f32) -> f32 {
    match how % 16 {
        0 | 1 => last,
        2 => last * float(0x3f7d_70a3),
        3 => last * float(0x3f7d_70a4),
        4 => last * float(0x3f7d_70a5),
        5 => last * float(0x3f81_4afd),
        6 => last * float(0x3f81_4afe),
        7 => last + float(0x3c23_d70a),
        8 => last - float(0x3c23_d70b),
        _ => x,
    }
}

// Whether a case starts from a drawn state: with an odd seed one of 4, else one of 64.
fn is_fresh(seed: u32, how: u32) -> bool {
    let draw = how >> 20;
    if seed % 2 == 0 {
        draw % 64 == 0
    } else {
        draw % 4 == 0
    }
}

impl Case {
    fn drawn(seed: u32, random: &mut Random, held: Held) -> Case {
        let [how, x, per_cent, character, source, step, ic1, ic2] = random.draws::<8>();
        let fresh = Svf {
            ic1: chosen(seed, how >> 16, ic1, sample(ic1)),
            ic2: chosen(seed, how >> 18, ic2, sample(ic2)),
        };
        let step = if seed % 2 == 0 { step >> 6 } else { step };
        let source = chosen(seed, how >> 12, source, sample(source));
        Case {
            percent: if (how >> 26) % 4 == 0 {
                chosen(seed, how >> 8, per_cent, percent(per_cent))
            } else {
                held.percent
            },
            character: chosen(seed, how >> 10, character, fraction(character)),
            source: if (how >> 28) % 8 == 0 {
                None
            } else {
                Some(source)
            },
            increment: nearest_i32(step) / 4294967296.0,
            x: near(how, held.x, chosen(seed, how >> 14, x, sample(x))),
            state: if is_fresh(seed, how) {
                fresh
            } else {
                held.state
            },
        }
    }

    // The sample shaped by the filter or the distortion itself, at the amount as it is.
    fn shaped_alone(self, mode: u32) -> Filtered {
        let numbers = lanes::rust_numbers();
        let a = self.percent * 0.01;
        if mode < VALVE {
            let harmonic = wave::cutoff_harmonic(mode, a);
            let k = wave::damping(self.character);
            return wave::filter(
                numbers,
                mode,
                harmonic,
                self.increment,
                k,
                self.x,
                self.state,
            );
        }
        wave::distort_smooth(numbers, mode, a, self.x, self.state)
    }

    // The sample shaped by a slot, at the amount kept within 0 and 100 %.
    fn shaped_in_slot(self, mode: u32) -> Filtered {
        let a = clamp(self.percent, 0.0, 100.0) * 0.01;
        let setting = wave::setting_of(mode, a, self.character, self.source);
        wave::shape(
            lanes::rust_numbers(),
            mode,
            setting,
            self.increment,
            self.x,
            self.state,
        )
    }
}

// Samples, one after another: mode 0 of the run shapes them, through a slot where mode 1 is not 0.
pub(crate) fn waves_hash(run: ModesRun) -> u64 {
    let mut held = Held {
        percent: 0.0,
        x: 0.0,
        state: Svf { ic1: 0.0, ic2: 0.0 },
    };
    hash_of(run.count, Random::new(run.seed), |random, hash| {
        let case = Case::drawn(run.seed, random, held);
        let shaped = if run.mode1 == 0 {
            case.shaped_alone(run.mode0)
        } else {
            case.shaped_in_slot(run.mode0)
        };
        hash.put_float(shaped.y);
        hash.put_float(shaped.state.ic1);
        hash.put_float(shaped.state.ic2);
        held = Held {
            percent: case.percent,
            x: case.x,
            state: shaped.state,
        };
    })
}
