// When a call is turned down: document 01's table of refusals, with a function for each test, and the
// lengths that it asks of buffers. Lines 1 to 6 take any numbers, so that a call puts its arguments to
// them as they come, and so do lines 7 and 8 but for `rendered_length`, which takes numbers that passed.
#![tactic(auto)]

pub mod answers;
pub mod lengths;
pub mod lines;
pub mod refusal;

pub use answers::{Answer, Value, Valued};
pub use lengths::{
    COEFS_LENGTH, CURVE_LENGTH, CYCLE_LENGTH, ControlLengths, NUMBERS_LENGTH, SUB_BLOCK,
    carry_length, controls_short, host_length, last_length, pairs_length, rendered_length, short,
    span_length, spans_of, state_length,
};
pub use lines::{
    asked_bad, check_lines, counts_bad, factor_bad, frame_bad, frames_bad, lane_bad, lanes_bad,
    mode_bad, modes_bad, points_bad, range_bad, rate_bad,
};
pub use refusal::Refusal;
