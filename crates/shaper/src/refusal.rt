// When the calls about a single rendered frame are turned down.
ghost use Rattle.std.specs.Prelude.{◌≡◌, ◌||◌};
ghost use Rattle.limits.specs.Lengths.{last_length, shorter};
ghost use Rattle.limits.specs.Refusals.{number_of};
ghost use Rattle.shaper.specs.Refusal.{reads_short, reads_refusal, sample_refusal};

use crate::settings::{Settings, SingleCall};
use limits::{
    CURVE_LENGTH, ControlLengths, Refusal, carry_length, check_lines, controls_short, factor_bad,
    frame_bad, lane_bad, last_length, modes_bad, pairs_length, rate_bad, short, span_length,
};

// Line 7 of a read list.
fn reads_short(s: Settings, l: ControlLengths, curve: usize, inner: usize) -> bool
    ensures { result ≡ reads_short s l curve inner }
{
    controls_short(s.frames, s.lanes, l)
        | short(CURVE_LENGTH, curve)
        | short(span_length(s.frames, s.lanes), inner)
}

// Line 8: `last`, and the FM carry or the filter pairs, which are `held` long and should be `whole`.
fn state_short(whole: usize, held: usize, lanes: u32, last: usize) -> bool
    ensures { result ≡ (shorter whole held || shorter (last_length lanes) last) }
{
    short(whole, held) | short(last_length(lanes), last)
}

// The lengths of what a read list is lent.
#[derive(Clone, Copy)]
pub struct ReadsLengths {
    pub controls: ControlLengths,
    pub curve: usize,
    pub inner: usize,
    pub fm: usize,
    pub last: usize,
}

// A read list.
#[tactic(auto, unfolding(crate::specs::Refusal::reads_refusal, limits::specs::Lines::first_of, limits::specs::Refusals::line_of))]
pub fn check_reads(call: SingleCall, rate: u32, l: ReadsLengths) -> Result<(), Refusal>
    ensures { number_of result ≡ reads_refusal call.settings rate call.active call.lane call.range call.frame l.controls l.curve l.inner l.fm l.last }
{
    let s = call.settings;
    let r = call.range;
    check_lines(&[
        (modes_bad(s.slot0.mode, s.slot1.mode), Refusal::Mode),
        (factor_bad(s.factor), Refusal::Factor),
        (lane_bad(s.lanes, call.active, call.lane), Refusal::Lanes),
        (
            frame_bad(s.factor, s.frames, r.first, r.count, call.frame),
            Refusal::Frames,
        ),
        (rate_bad(rate), Refusal::Rate),
        (
            reads_short(s, l.controls, l.curve, l.inner),
            Refusal::ShortRead,
        ),
        (
            state_short(carry_length(s.lanes), l.fm, s.lanes, l.last),
            Refusal::ShortWrite,
        ),
    ])
}

// A sample; of the filter pairs and `last` the lengths.
#[tactic(auto, unfolding(crate::specs::Refusal::sample_refusal, limits::specs::Lines::first_of, limits::specs::Refusals::line_of))]
pub fn check_sample(
    call: SingleCall,
    l: ControlLengths,
    pairs: usize,
    last: usize,
) -> Result<(), Refusal>
    ensures { number_of result ≡ sample_refusal call.settings call.active call.lane call.range call.frame l pairs last }
{
    let s = call.settings;
    let r = call.range;
    check_lines(&[
        (modes_bad(s.slot0.mode, s.slot1.mode), Refusal::Mode),
        (factor_bad(s.factor), Refusal::Factor),
        (lane_bad(s.lanes, call.active, call.lane), Refusal::Lanes),
        (
            frame_bad(s.factor, s.frames, r.first, r.count, call.frame),
            Refusal::Frames,
        ),
        (controls_short(s.frames, s.lanes, l), Refusal::ShortRead),
        (
            state_short(pairs_length(s.lanes), pairs, s.lanes, last),
            Refusal::ShortWrite,
        ),
    ])
}
