// Patch files: reading them, writing them, and when two hold the same patch.
#![tactic(auto)]

pub mod answers;
pub mod fields;
pub mod patches;
pub mod reader;
pub mod records;
pub mod writer;

pub use answers::{CardPatch, CardSlot, Same, Written, same_patch};
pub use patches::{Patch, PatchSlot, card_amount, card_character};
pub use reader::{PatchError, read_patch};
pub use writer::write_patch;
