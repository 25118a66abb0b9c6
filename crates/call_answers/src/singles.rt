// Runs of the calls about one lane: their buffers and then their calls are remade from a seed, the calls
// one after the other on the same buffers, and a hash takes what each answers and leaves, field by field: C's structs
// hold floats, which std hashes none of.
use crate::calls::Call;
use crate::drawn_controls::Controls;
use crate::faults::{Fault, cut, cut_mut};
use crate::numbers::Draws;
use answers::cells::cell;
use answers::hash::Hash;
use answers::phases::{inner_stretch, put_reads};
use answers::random::Random;
use answers::runs::{ModesRun, hash_of};
use answers::waves::sample;
use controls::ControlSlices;
use limits::Valued;
use shaper::ReadsAnswer;

fn put_list(hash: &mut Hash, a: ReadsAnswer) {
    hash.put(a.number);
    hash.put(a.frames);
    put_reads(hash, a.reads);
}

pub(crate) fn put_value(hash: &mut Hash, a: Valued) {
    hash.put(a.number);
    hash.put(a.frames);
    hash.put_float(a.value);
}

// A call's controls, whose first buffer may be a cell short.
pub(crate) fn lent<'a>(c: Call, d: Draws, controls: &'a Controls<288>) -> ControlSlices<'a> {
    let slices = controls.lent(d.how);
    ControlSlices {
        base0: cut(c.fault, Fault::FirstBuffer, slices.base0, c.row),
        ..slices
    }
}

// Read lists.
pub fn reads_hash(table: &[f32; 1025], run: ModesRun) -> u64 {
    let seed = run.seed;
    let mut random = Random::new(seed);
    let controls = Controls::<288>::drawn(seed, &mut random);
    let inner: [f32; 12] = random.cells(|draw| cell(seed, draw, inner_stretch(draw)));
    let mut fm: [f32; 8] = random.cells(|draw| cell(seed, draw, sample(draw) * 0.5));
    let last: [f32; 4] = random.cells(|draw| cell(seed, draw, sample(draw)));
    hash_of(run.count, random, |random, hash| {
        let d = Draws::new(random);
        let c = Call::new(run, d);
        let outcome = shaper::reads_lane(
            c.single(),
            c.rate,
            c.word,
            c.step,
            &lent(c, d, &controls),
            table,
            &inner,
            &mut fm,
            cut(c.fault, Fault::LastBuffer, &last, c.row),
        );
        put_list(hash, ReadsAnswer::from(outcome));
        hash.put_floats(&fm);
    })
}

// Shaped samples.
pub fn samples_hash(run: ModesRun) -> u64 {
    let seed = run.seed;
    let mut random = Random::new(seed);
    let controls = Controls::<288>::drawn(seed, &mut random);
    let mut pairs: [f32; 16] = random.cells(|draw| cell(seed, draw, sample(draw)));
    let mut last: [f32; 4] = random.cells(|draw| cell(seed, draw, sample(draw)));
    hash_of(run.count, random, |random, hash| {
        let d = Draws::new(random);
        let c = Call::new(run, d);
        let outcome = shaper::shape_at_lane(
            c.single(),
            c.step,
            c.x,
            &lent(c, d, &controls),
            &mut pairs,
            cut_mut(c.fault, Fault::LastBuffer, &mut last, c.row),
        );
        put_value(hash, Valued::from(outcome));
        hash.put_floats(&pairs);
        hash.put_floats(&last);
    })
}
