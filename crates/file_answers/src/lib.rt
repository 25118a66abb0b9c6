// Patch files made again whose answers are stored, and some whose readings are known: for the program
// `vectors`. A library of its own so that it is checked beside the crates that render a block.
#![tactic(auto)]

mod drawn;
pub mod examples;
pub mod runs;
