// The mode facts of mod.rs, each one decision over the mode number, 0 to 69 in the order of `Mode`; the numbers by
// name. A mode above 69 is refused, with line 1 of the table of refusals.
#![tactic(auto)]

pub mod facts;
pub mod modulation;
pub mod numbers;
pub mod shaping;

pub use facts::{FmType, Modulated, Source, Stage};
pub use modulation::{fm_type, modulated, source};
pub use shaping::{distortion, is_distortion, oversampled, stage};
