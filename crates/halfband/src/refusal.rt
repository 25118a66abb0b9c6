// When a decimation is turned down.
ghost use Rattle.std.specs.Prelude.{◌≡◌, false, slice_index};
ghost use Rattle.limits.specs.Lines.{first_of, number_lines, bad_factor, bad_lanes, bad_frames, bad_counts};
ghost use Rattle.limits.specs.Refusals.{number_of};
ghost use Rattle.halfband.specs.Refusal.{refusal};

use limits::{
    COEFS_LENGTH, Refusal, check_lines, counts_bad, factor_bad, frames_bad, lanes_bad,
    rendered_length, short, state_length,
};

// The numbers of a call: `frames` are its output frames, `active` the lanes that it decimates.
#[derive(Clone, Copy)]
pub struct CallNumbers {
    pub factor: u32,
    pub lanes: u32,
    pub active: u32,
    pub frames: u32,
}

// Lines 2, 3, 4 and 6, for a decimation's numbers and a plan's; `counts` are the three designs'.
#[tactic(auto, unfolding(limits::specs::Lines::first_of, limits::specs::Refusals::line_of))]
pub fn check_numbers(call: CallNumbers, counts: [u32; 3]) -> Result<(), Refusal>
    ensures { number_of result ≡ first_of (number_lines false (bad_factor call.factor) (bad_lanes call.lanes call.active) (bad_frames call.frames) false (bad_counts (slice_index counts 0) (slice_index counts 1) (slice_index counts 2))) }
{
    let [count0, count1, count2] = counts;
    check_lines(&[
        (factor_bad(call.factor), Refusal::Factor),
        (lanes_bad(call.lanes, call.active), Refusal::Lanes),
        (frames_bad(call.frames), Refusal::Frames),
        (counts_bad(count0, count1, count2), Refusal::Design),
    ])
}

// The first line that holds. `coefs`, `buffer` and `state` are the lengths of what is lent.
#[tactic(auto, unfolding(limits::specs::Lines::first_of, limits::specs::Refusals::number_of, limits::specs::Refusals::line_of, crate::specs::Refusal::refusal))]
pub fn check(
    call: CallNumbers,
    counts: [u32; 3],
    coefs: usize,
    buffer: usize,
    state: usize,
) -> Result<(), Refusal>
    ensures { number_of result ≡ refusal call.factor call.lanes call.active call.frames (slice_index counts 0) (slice_index counts 1) (slice_index counts 2) coefs buffer state }
{
    check_numbers(call, counts)?;
    let rendered = rendered_length(call.frames, call.factor, call.lanes);
    let is_short = short(rendered, buffer) | short(state_length(call.lanes), state);
    check_lines(&[
        (short(COEFS_LENGTH, coefs), Refusal::ShortRead),
        (is_short, Refusal::ShortWrite),
    ])
}
