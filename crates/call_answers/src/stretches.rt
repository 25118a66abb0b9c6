// Runs of the calls about a block's spans, made and hashed as those of singles.rt.
use crate::calls::Call;
use crate::drawn_controls::Controls;
use crate::faults::{Fault, cut, cut_mut};
use crate::numbers::Draws;
use crate::singles::{lent, put_value};
use answers::cells::cell;
use answers::hash::Hash;
use answers::phases::{inner_stretch, slope_table};
use answers::random::Random;
use answers::runs::{ModesRun, hash_of};
use controls::ControlSlices;
use floats::nearest_u32;
use limits::{Answer, Valued};
use shaper::Settings;
use spans::{PrepareNumbers, StretchNumbers};

// What modulation adds to a step: 0, or a number of words to 2^30.
fn slope(draw: u32) -> f32 {
    if draw % 4 == 0 {
        0.0
    } else {
        nearest_u32(draw >> 8) * 64.0
    }
}

// The spans of a block: `N` cells of each buffer, which a call is lent as slices of their own.
#[derive(Clone, Copy)]
pub struct Spans<const N: usize> {
    pub inner: [f32; N],
    pub stretch: [f32; N],
    pub add: [f32; N],
}

impl<const N: usize> Spans<N> {
    pub fn drawn(seed: u32, random: &mut Random) -> Spans<N> {
        let stretch = |draw| cell(seed, draw, inner_stretch(draw));
        Spans {
            inner: random.cells(stretch),
            stretch: random.cells(stretch),
            add: random.cells(|draw| cell(seed, draw, slope(draw))),
        }
    }
}

fn prepare(
    s: Settings,
    active: u32,
    rate: u32,
    controls: &ControlSlices<'_>,
    curve: &[f32; 1025],
    inner: &mut [f32],
    stretch: &mut [f32],
    add: &mut [f32],
) -> Answer {
    let block = PrepareNumbers {
        mode0: s.slot0.mode,
        mode1: s.slot1.mode,
        factor: s.factor,
        lanes: s.lanes,
        active,
        frames: s.frames,
        rate,
    };
    Answer::from(spans::prepare(block, controls, curve, inner, stretch, add))
}

impl<const N: usize> Spans<N> {
    // What a call answers and the spans that it leaves, cell by cell as in singles.rt.
    fn put_to(&self, hash: &mut Hash, a: Answer) {
        hash.put(a.number);
        hash.put(a.frames);
        hash.put_floats(&self.inner);
        hash.put_floats(&self.stretch);
        hash.put_floats(&self.add);
    }

    // The spans of a block that is rendered afterwards.
    pub fn prepare(
        &mut self,
        hash: &mut Hash,
        s: Settings,
        active: u32,
        rate: u32,
        controls: &ControlSlices<'_>,
        curve: &[f32; 1025],
    ) {
        let a = prepare(
            s,
            active,
            rate,
            controls,
            curve,
            &mut self.inner,
            &mut self.stretch,
            &mut self.add,
        );
        self.put_to(hash, a);
    }
}

// Spans.
pub fn spans_hash(run: ModesRun) -> u64 {
    let seed = run.seed;
    let curve = slope_table(seed);
    let mut random = Random::new(seed);
    let controls = Controls::<288>::drawn(seed, &mut random);
    let mut spans = Spans::<12>::drawn(seed, &mut random);
    hash_of(run.count, random, |random, hash| {
        let d = Draws::new(random);
        let c = Call::new(run, d);
        let a = prepare(
            c.settings,
            c.active,
            c.rate,
            &lent(c, d, &controls),
            &curve,
            &mut spans.inner,
            &mut spans.stretch,
            cut_mut(c.fault, Fault::LastBuffer, &mut spans.add, c.rows),
        );
        spans.put_to(hash, a);
    })
}

// Stretches.
pub fn stretches_hash(run: ModesRun) -> u64 {
    let seed = run.seed;
    let mut random = Random::new(seed);
    let stretch: [f32; 12] = random.cells(|draw| cell(seed, draw, inner_stretch(draw)));
    let add: [f32; 12] = random.cells(|draw| cell(seed, draw, slope(draw)));
    hash_of(run.count, random, |random, hash| {
        let c = Call::new(run, Draws::new(random));
        let s = c.settings;
        let call = StretchNumbers {
            factor: s.factor,
            lanes: s.lanes,
            active: c.active,
            lane: c.lane,
            frames: s.frames,
            first: c.range.first,
            count: c.range.count,
            asked_first: c.frame,
            asked: c.asked,
            step: c.step,
        };
        let stretch = cut(c.fault, Fault::FirstBuffer, &stretch, c.rows);
        let add = cut(c.fault, Fault::LastBuffer, &add, c.rows);
        put_value(hash, Valued::from(spans::stretch(call, stretch, add)));
    })
}
