// The run of any range of a block: a read list, the sum of its reads and the shaped sample for each
// rendered frame of each active lane, the decimation, and the copy to the range's output rows.
#![tactic(auto)]

pub mod refusal;
pub mod run;
pub mod settings;

pub use refusal::{
    CallNumbers, ReadLengths, WriteLengths, call_numbers, check, read_lengths, write_lengths,
};
pub use render::{BlockSettings, LentSlices, Rows};
pub use run::{block_run, run_lanes};
pub use settings::{numbers_of, settings_of};
