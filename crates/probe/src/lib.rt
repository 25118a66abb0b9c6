// Exports for the comparison with the Rust and its measurement: the calls that only tests need from
// outside.
#![tactic(auto)]

pub mod fact;
pub mod leaf;
pub mod phases;
pub mod singles;
pub mod waves;
