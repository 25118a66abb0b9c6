// The wave stage of wave.rs: the filters and the distortions that bend the value after the read, and
// what a slot does to one sample. Mode, sample and state stay parameters of each: no fact ties them, and a struct would
// be made for each sample and taken apart at once.
#![tactic(auto)]

pub mod curves;
pub mod filters;
pub mod integrals;
pub mod slots;
pub mod smoothing;

pub use curves::{curve, curve_all};
pub use filters::{Filtered, Svf, cutoff_harmonic, damping, filter, filter_with, tangent};
pub use integrals::integral;
pub use slots::{
    Setting, in_wave, is_filter, is_level, is_modulated, level, level_setting, setting_of,
    setting_with, shape, wave_power,
};
pub use smoothing::{blend_rectified, distort, distort_smooth, drive};
