// One lane's whole share of a range of a block, `render_oversampled` of mod.rs for one lane: its samples,
// their decimation, the copy to the range's output rows, its state carried on.
#![tactic(auto)]

pub mod cells;
pub mod lane;

pub use lane::run_lane;
