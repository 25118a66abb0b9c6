// The rendered frames of one lane over a range of a block: `render_oversampled` of mod.rs up to the
// decimation, for one lane.
#![tactic(auto)]

pub mod drives;
pub mod frame;
pub mod frames;
pub mod host;
pub mod lent;
pub mod plain;
pub mod state;

pub use frames::render_lane;
pub use lent::{AcceptedSlices, LentSlices, Rows};
pub use state::{BlockSettings, LaneRange, Voice};
