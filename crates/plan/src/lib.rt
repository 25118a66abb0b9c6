// What a block needs before it is made: how many floats work and what lanes carry must have, how many reads
// it makes at most and how many steps its half-band sections take.
#![tactic(auto)]

pub mod needs;

pub use needs::{BlockNumbers, Plan, checked_plan, floats_of, plan_of};
