// `stretch` of phase.rs, the steepest slope that a mode reads the cycle with, and the strengths that maps
// and slopes share.
#![tactic(auto)]

pub mod steepest;
pub mod strengths;

pub use steepest::{stretch, stretch_of};
pub use strengths::{LEAN_MAX, PULSE_MAX, lean_strength, pinch_strength};
