// An f32 by its value and its bit pattern: what lanes.rs takes from the machine or the standard
// library, worked out by the program and equal to a definition for every f32.
#![tactic(auto)]

pub mod cast;
pub mod pattern;
pub mod power;
pub mod root;
pub mod sign;
pub mod whole;

pub use cast::{cast_usize, cast_word, nearest_i32, nearest_u32};
pub use pattern::{Parts, split};
pub use power::{POWERS, exp2, power_table};
pub use root::sqrt;
pub use sign::{abs, sign_bit};
pub use whole::floor;
