// One lane's whole share of a range as a call of its own: the block run's arguments and a lane.
#![tactic(auto)]

pub mod either;
pub mod refusal;
pub mod run;

pub use either::{Interval, interval_of};
pub use refusal::check_either;
pub use run::lane_run;
