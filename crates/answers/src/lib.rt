// The oracle's stored answers about leaves, read lists, slots of the wave stage and decimations, made
// again: for the program `vectors`.
#![tactic(auto)]

pub mod answer;
pub mod cells;
pub mod decimations;
mod facts;
pub mod hash;
pub mod phases;
pub mod random;
pub mod runs;
pub mod waves;
