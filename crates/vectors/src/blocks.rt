// Runs of the block run: designs, a block's numbers and its buffers are remade from a seed, its spans
// are prepared, and then its ranges are rendered one after another on the same buffers. At the most four
// lanes and 40 host frames. Some calls are made to be turned down.
use crate::renders::{Asked, Calls};
use crate::settings::{block_of, faulted};
use answers::cells::cell;
use answers::decimations::designs;
use answers::hash::Hash;
use answers::random::Random;
use answers::runs::ModesRun;
use answers::waves::sample;
use block::{LentSlices, Rows};
use call_answers::block_calls::{range_of, short, short_rendered};
use call_answers::block_cells::{Voices, Words, curve_of};
use call_answers::drawn_controls::Controls;
use call_answers::faults::{Fault, cut, fault_of_block};
use call_answers::numbers::{Draws, active_of, active_with, below};
use call_answers::stretches::Spans;
use controls::ControlSlices;
use limits::Answer;

// Each range is about the frames behind the last one's, after the block's end from its start again. Where its calls
// have no one answer the hash comes out wrong.
pub fn block_hash(table: &[f32; 1025], run: ModesRun, calls: Calls) -> u64 {
    let seed = run.seed;
    let mut random = Random::new(seed);
    let designs = designs(seed, &mut random);
    let d = Draws::new(&mut random);
    let block = block_of(run, d, designs);
    let s = block.shaper;
    let curve = curve_of(table, seed);
    let drawn = Controls::<160>::drawn(seed, &mut random);
    let controls = drawn.lent(d.how);
    let cycle: [f32; 2048] = random.cells(|draw| cell(seed, draw, sample(draw)));
    let mut spans = Spans::<8>::drawn(seed, &mut random);
    let mut voices = Voices::drawn(seed, &mut random);
    let words = Words::drawn(seed, s.lanes as usize, &mut random);
    let mut hash = Hash::new();
    let active = active_of(d.sizes, s.lanes);
    spans.prepare(&mut hash, s, active, block.rate, &controls, &curve);
    let mut first = 0;
    // A count of draws: no element stands behind a turn.
    for _ in 0..run.count {
        let d = Draws::new(&mut random);
        let fault = fault_of_block(d.how);
        let asked = Asked {
            settings: faulted(block, fault),
            range: range_of(s.frames, d.range, first, fault),
            active: active_with(fault, s.lanes, active_of(d.sizes, s.lanes)),
            lent: LentSlices {
                rows: Rows {
                    controls: ControlSlices {
                        base0: cut(fault, Fault::Base0, controls.base0, short(1, s.lanes)),
                        ..controls
                    },
                    words: cut(fault, Fault::Words, &words.words, short_rendered(s)),
                    steps: &words.steps,
                    inner: &spans.inner,
                },
                curve: &curve,
                cycle: cut(fault, Fault::Cycle, &cycle, 2047),
            },
            fault,
            frames: s.frames,
        };
        if let Some(outcome) = calls.render(&asked, &mut voices) {
            let a = Answer::from(outcome);
            hash.put(a.number);
            hash.put(a.frames);
            first = below(first.wrapping_add(a.frames), s.frames);
        }
        voices.put_to(&mut hash);
    }
    hash.value
}
