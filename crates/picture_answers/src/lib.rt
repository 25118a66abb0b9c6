// The oracle's stored answers about pictures, made again: for the program `vectors`. A library of its own so
// that it is checked beside the crates that render a block.
#![tactic(auto)]

pub mod pictures;
