// The oracle's stored answers about the calls on one lane and about a block's spans, made again, and what
// is drawn for a block: for the program `vectors`. A library of its own so that it is checked beside the
// crates that render a block.
#![tactic(auto)]

pub mod block_calls;
pub mod block_cells;
pub mod calls;
pub mod drawn_controls;
pub mod faults;
pub mod numbers;
pub mod singles;
pub mod stretches;
