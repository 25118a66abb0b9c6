// The cells of a block's buffers, made of draws: at the most four lanes and 40 host frames.
use crate::numbers::step_of;
use answers::cells::cell;
use answers::hash::Hash;
use answers::phases::slope_table;
use answers::random::Random;
use answers::waves::sample;

// The curve of a block: the lent one, or one of its seed's own.
pub fn curve_of(table: &[f32; 1025], seed: u32) -> [f32; 1025] {
    if seed / 16 % 2 == 0 {
        *table
    } else {
        slope_table(seed)
    }
}

// What a call changes. Each is lent as a slice of its own, and they differ in length: no rows of one struct.
#[derive(Clone, Copy)]
pub struct Voices {
    pub output: [f32; 160],
    pub work: [f32; 1280],
    pub pairs: [f32; 16],
    pub fm: [f32; 8],
    pub last: [f32; 4],
    pub state: [f32; 288],
}

impl Voices {
    pub fn drawn(seed: u32, random: &mut Random) -> Voices {
        let sample_cell = |draw| cell(seed, draw, sample(draw));
        Voices {
            output: random.cells(sample_cell),
            work: random.cells(sample_cell),
            pairs: random.cells(sample_cell),
            fm: random.cells(|draw| cell(seed, draw, sample(draw) * 0.5)),
            last: random.cells(sample_cell),
            state: random.cells(sample_cell),
        }
    }

    // Cell by cell, since std hashes no floats.
    pub fn put_to(&self, hash: &mut Hash) {
        hash.put_floats(&self.output);
        hash.put_floats(&self.work);
        hash.put_floats(&self.pairs);
        hash.put_floats(&self.fm);
        hash.put_floats(&self.last);
        hash.put_floats(&self.state);
    }
}

// Phase words and their steps: a block run is lent each as a slice of its own.
#[derive(Clone, Copy)]
pub struct Words {
    pub steps: [u32; 1280],
    pub words: [u32; 1280],
}

impl Words {
    // Seven words of eight go on from the row before by its step, so that a lane reads near an entry again. By
    // index, since a word is made of an earlier one.
    pub fn drawn(seed: u32, lanes: usize, random: &mut Random) -> Words {
        let steps = random.draws::<1280>().map(|draw| step_of(seed, draw));
        let mut words = random.draws::<1280>();
        for i in lanes..1280 {
            if words[i] % 8 != 0 {
                words[i] = words[i - lanes].wrapping_add(steps[i - lanes]);
            }
        }
        Words { steps, words }
    }
}
