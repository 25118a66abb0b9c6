// The spans of a block: how steep each lane reads in each sub-block of 32 host frames. `prepare` of
// mod.rs makes them, `PhaseRun::stretch` reads them.
#![tactic(auto)]

pub mod asked;
pub mod blocks;
pub mod refusal;
pub mod rows;
pub mod slopes;

pub use asked::stretch;
pub use blocks::prepare;
pub use refusal::{PrepareLengths, PrepareNumbers, StretchNumbers, check_prepare, check_stretch};
pub use rows::LaneRows;
pub use slopes::{Block, Swing};
