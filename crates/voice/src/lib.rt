// The two stages of a render for one lane at one rendered frame, `PhaseRun` and `WaveRun` of mod.rs,
// with the lane's state in and out by value.
#![tactic(auto)]

pub mod control;
pub mod phase_run;
pub mod power;
pub mod sum_run;
pub mod wave_run;

pub use control::{Control, Driven, Slots};
pub use phase_run::{
    FM_MAX_HZ, PD_MAX_CYCLES, PhaseFrame, Reads, fm_exponential, fm_scale, in_phase, is_own,
    reads_of,
};
pub use power::power_of;
pub use sum_run::{Summed, sum_of};
pub use wave_run::{Shaped, WaveState, has_state, shape_level, shape_of};
