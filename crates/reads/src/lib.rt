// Read lists (`ReadList` of phase.rs, `LaneReads` of osc/mod.rs): up to four reads of the cycle with their
// gains, moved on by an offset; what they add up to, read in the lent cycle; and the one or two reads that
// a map makes of one.
#![tactic(auto)]

pub mod branches;
pub mod cycle;
pub mod lists;

pub use branches::{BranchKind, Branches, Read};
pub use cycle::Cycle;
pub use lists::{LaneReads, MAX_READS, ReadList};
