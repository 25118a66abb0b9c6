// The maps of phase.rs: a slot's map takes each read of a list to one or two reads, at most four in all.
#![tactic(auto)]

pub mod edge;
pub mod map;
pub mod power;
pub mod quantise;
pub mod setting;
pub mod sums;

pub use map::{Slot, apply};
pub use power::map_power;
pub use setting::{MapSetting, Tables};
pub use sums::{Reading, mapped_sum};
