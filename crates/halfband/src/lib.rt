// The half-band decimator of halfband.rs, one lane at a time: `Stage::scalar` under
// `Decimator::process`. Every operation is rounded by itself.
#![tactic(auto)]

pub mod cascade;
pub mod design;
pub mod refusal;
pub mod stage;

pub use cascade::{decimate_lane, process, stages_of};
pub use design::{CARD, Design, Designs, card_designs, designs_of};
pub use refusal::{CallNumbers, check, check_numbers};
