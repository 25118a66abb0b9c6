// The shaper's calls about a single lane at a single rendered frame, over lent buffers: `reads_lane`
// and `shape_at_lane` of mod.rs.
#![tactic(auto)]

pub mod cells;
pub mod lane;
pub mod refusal;
pub mod settings;
pub mod single;

pub use cells::{load_pair, store_carry, store_last, store_pairs};
pub use lane::{reads_at, shape_at};
pub use settings::{Range, Settings, SingleCall};
pub use single::{ReadsAnswer, reads_lane, shape_at_lane};
