// The calls.
ghost use Rattle.std.specs.Prelude.{◌≡◌, ◌≤◌, length};
ghost use Rattle.limits.specs.Lengths.{pairs_length, carry_length, last_length};
ghost use Rattle.limits.specs.Refusals.{valued_of};
ghost use Rattle.controls.specs.Controls.{control_lengths};
ghost use Rattle.controls.specs.Slices.{control_lists};
ghost use Rattle.shaper.specs.ReadsCall.{no_reads, reads_from, reads_answer, ReadsCall};
ghost use Rattle.shaper.specs.SampleCall.{sample_from, SampleCall};
ghost use Rattle.shaper.specs.Taken.{Driven, Fed, ReadsTaken, SampleTaken};

use crate::cells::{load_pair, store_carry, store_last, store_pairs};
use crate::lane::{reads_at, shape_at};
use crate::refusal::{ReadsLengths, check_reads, check_sample};
use crate::settings::{Settings, SingleCall};
use controls::ControlSlices;
use curve::Curve;
use grid::Lane;
use limits::Refusal;
use reads::LaneReads;
use voice::WaveState;

// For C, which has no `Result`: the number of a refusal, 0 where there is none, the range's frames, and the list.
#[repr(C)]
#[derive(Clone, Copy)]
pub struct ReadsAnswer {
    pub number: u32,
    pub frames: u32,
    pub reads: LaneReads,
}

impl From<Result<(u32, LaneReads), Refusal>> for ReadsAnswer {
    ghost from_gives = { λ r a. a ≡ reads_answer r };

    #[tactic(auto, unfolding(crate::specs::ReadsCall::reads_answer))]
    fn from(outcome: Result<(u32, LaneReads), Refusal>) -> ReadsAnswer {
        match outcome {
            Ok((frames, reads)) => ReadsAnswer {
                number: 0,
                frames,
                reads,
            },
            Err(refusal) => ReadsAnswer {
                number: u32::from(refusal),
                frames: 0,
                reads: no_reads(),
            },
        }
    }
}

// A refused list.
fn no_reads() -> LaneReads
    ensures { result ≡ no_reads }
{
    LaneReads {
        phase: [0; 4],
        gain: [0.0; 4],
        count: 0,
    }
}

// The list of a call that is taken, its FM carry stored. The parameters are those of `reads_at`, with the buffers.
#[tactic(auto, using(crate::proofs::TakenLaws::reads_taken), unfolding(grid::specs::Cells::col))]
fn reads_taken(
    s: Settings,
    rate: u32,
    lane: usize,
    host: usize,
    sub: u32,
    word: u32,
    step: u32,
    controls: &ControlSlices<'_>,
    curve: Curve<'_>,
    inner: &[f32],
    fm: &mut [f32],
    last: &[f32],
) -> LaneReads
    requires fed { Fed s rate (control_lengths (control_lists controls.now)) lane host (length inner.now) }
    requires carry_held { carry_length s.lanes ≤ length fm.old }
    requires last_held { last_length s.lanes ≤ length last.now }
    ensures { ReadsTaken s lane
        (reads_from s rate lane host sub word step (control_lists controls.now) curve.entry.values.now inner.now fm.old last.now)
        fm.old fm.new result }
{
    let at = Lane {
        lanes: s.lanes as usize,
        index: lane,
    };
    let at0 = at.place(0);
    let at1 = at.place(1);
    let called = reads_at(
        s, rate, lane, host, sub, word, step, controls, curve, inner, fm[at0], fm[at1], last[at0],
    );
    store_carry(fm, at, called.fm0, called.fm1);
    called.reads
}

// The range's frames, and the read list of one lane at one rendered frame, for a phase `word` that moves `step` words a
// rendered frame. `fm` is the FM carry; `last` is only read.
#[tactic(auto, using(crate::proofs::RefusalLaws::reads_passed, crate::proofs::RefusalLaws::driven_of_lem))]
pub fn reads_lane(
    call: SingleCall,
    rate: u32,
    word: u32,
    step: u32,
    controls: &ControlSlices<'_>,
    curve: &[f32],
    inner: &[f32],
    fm: &mut [f32],
    last: &[f32],
) -> Result<(u32, LaneReads), Refusal>
    ensures { ReadsCall call.settings rate call.active call.lane call.range call.frame word step (control_lists controls.now)
        curve.now inner.now fm.old fm.new last.now (reads_answer result) }
{
    let lengths = ReadsLengths {
        controls: controls.lengths(),
        curve: curve.len(),
        inner: inner.len(),
        fm: fm.len(),
        last: last.len(),
    };
    check_reads(call, rate, lengths)?;
    let s = call.settings;
    let host = (call.range.first + call.frame / s.factor) as usize;
    let sub = call.frame % s.factor;
    let curve = Curve { values: curve };
    let reads = reads_taken(
        s,
        rate,
        call.lane as usize,
        host,
        sub,
        word,
        step,
        controls,
        curve,
        inner,
        fm,
        last,
    );
    Ok((call.range.count, reads))
}

// The sample of a call that is taken, its filter pairs and `last` stored. The parameters are those of `shape_at`, with
// the buffers.
#[tactic(auto, using(crate::proofs::TakenLaws::sample_taken, grid::proofs::CellLaws::col_at))]
fn sample_taken(
    s: Settings,
    lane: usize,
    host: usize,
    sub: u32,
    step: u32,
    x: f32,
    controls: &ControlSlices<'_>,
    pairs: &mut [f32],
    last: &mut [f32],
) -> f32
    requires driven { Driven s (control_lengths (control_lists controls.now)) lane host }
    requires pairs_held { pairs_length s.lanes ≤ length pairs.old }
    requires last_held { last_length s.lanes ≤ length last.old }
    ensures { SampleTaken s lane
        (sample_from s lane host sub step x (control_lists controls.now) pairs.old last.old)
        pairs.old last.old pairs.new last.new result }
{
    let at = Lane {
        lanes: s.lanes as usize,
        index: lane,
    };
    let state = WaveState {
        pairs0: load_pair(pairs, 0, at),
        pairs1: load_pair(pairs, 2, at),
        last: last[at.place(0)],
    };
    let called = shape_at(s, lane, host, sub, step, x, controls, state);
    store_pairs(pairs, at, called.pairs0, called.pairs1);
    store_last(last, at, called.last);
    called.y
}

// The range's frames, and the sample `x` of one lane at one rendered frame, shaped. `pairs` are the filter
// pairs; `last` keeps the raw sample for phase distortion from the oscillator's own signal.
#[tactic(auto, using(crate::proofs::RefusalLaws::sample_passed, crate::proofs::RefusalLaws::driven_of_lem))]
pub fn shape_at_lane(
    call: SingleCall,
    step: u32,
    x: f32,
    controls: &ControlSlices<'_>,
    pairs: &mut [f32],
    last: &mut [f32],
) -> Result<(u32, f32), Refusal>
    ensures { SampleCall call.settings call.active call.lane call.range call.frame step x (control_lists controls.now)
        pairs.old last.old pairs.new last.new (valued_of result) }
{
    check_sample(call, controls.lengths(), pairs.len(), last.len())?;
    let s = call.settings;
    let host = (call.range.first + call.frame / s.factor) as usize;
    let sub = call.frame % s.factor;
    let value = sample_taken(
        s,
        call.lane as usize,
        host,
        sub,
        step,
        x,
        controls,
        pairs,
        last,
    );
    Ok((call.range.count, value))
}
