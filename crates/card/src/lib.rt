// The card's calls for its C firmware, on numbers and slices. A slice is a pointer and a count.
// include/shaper.h has the C side, which is fixed: so an export's parameters stay one by one, and its first step is to
// gather them.
#![tactic(auto)]

pub mod decimation;
pub mod either;
pub mod lane;
pub mod level;
pub mod patches;
pub mod picture;
pub mod planning;
pub mod preparation;
pub mod run;
