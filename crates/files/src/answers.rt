// What the card's calls on patch files answer, as C has it: each struct here is C's form of a result. `Written` is no
// `Answer` of limits with the same conversion: C's two structs name their values each in its own way.
ghost use Rattle.std.specs.Prelude.{◌≡◌};
ghost use Rattle.files.specs.Reader.{reading_as};
ghost use Rattle.files.specs.Writer.{written_as};
ghost use Rattle.files.specs.Card.{card_slot, card_patch, same_as, same_of};

use crate::patches::{Patch, PatchSlot, card_amount, card_character};
use crate::reader::PatchError;
use limits::Refusal;

// A slot in the file's whole numbers and in the card's floats.
#[repr(C)]
#[derive(Clone, Copy)]
pub struct CardSlot {
    pub mode: u32,
    pub hundredths: u32,
    pub tenthousandths: u32,
    pub amount: f32,
    pub character: f32,
}

impl From<PatchSlot> for CardSlot {
    ghost from_gives = { λ s c. c ≡ card_slot s };

    #[tactic(auto, unfolding(crate::specs::Card::card_slot))]
    fn from(slot: PatchSlot) -> CardSlot {
        CardSlot {
            mode: slot.mode,
            hundredths: slot.hundredths,
            tenthousandths: slot.tenthousandths,
            amount: card_amount(slot.hundredths),
            character: card_character(slot.tenthousandths),
        }
    }
}

// C's form of a reading: its number and the refused record's place with no patch, or 0 and the patch.
#[repr(C)]
#[derive(Clone, Copy)]
pub struct CardPatch {
    pub number: u32,
    pub at: u32,
    pub slot0: CardSlot,
    pub slot1: CardSlot,
}

impl From<Result<Patch, PatchError>> for CardPatch {
    ghost from_gives = { λ r c. c ≡ card_patch (reading_as r) };

    #[tactic(auto, unfolding(crate::specs::Card::card_patch, crate::specs::Reader::reading_as))]
    fn from(reading: Result<Patch, PatchError>) -> CardPatch {
        let (number, at, patch) = match reading {
            Ok(patch) => (0, 0, patch),
            Err(error) => (u32::from(error.refusal), error.at, Patch::default()),
        };
        CardPatch {
            number,
            at,
            slot0: CardSlot::from(patch.slot0),
            slot1: CardSlot::from(patch.slot1),
        }
    }
}

// C's form of a writing: its number, and how many bytes it wrote.
#[repr(C)]
#[derive(Clone, Copy)]
pub struct Written {
    pub number: u32,
    pub bytes: u32,
}

impl From<Result<u32, Refusal>> for Written {
    ghost from_gives = { λ r w. w ≡ written_as r };

    #[tactic(auto, unfolding(crate::specs::Writer::written_as))]
    fn from(outcome: Result<u32, Refusal>) -> Written {
        match outcome {
            Ok(bytes) => Written { number: 0, bytes },
            Err(refusal) => Written {
                number: u32::from(refusal),
                bytes: 0,
            },
        }
    }
}

// C's form of whether two files hold the same patch: 1 or 0, and the number of the first that is turned away.
#[repr(C)]
#[derive(Clone, Copy)]
pub struct Same {
    pub number: u32,
    pub same: u32,
}

impl From<Result<bool, Refusal>> for Same {
    ghost from_gives = { λ r s. s ≡ same_as r };

    #[tactic(auto, unfolding(crate::specs::Card::same_as))]
    fn from(outcome: Result<bool, Refusal>) -> Same {
        match outcome {
            Ok(same) => Same {
                number: 0,
                same: u32::from(same),
            },
            Err(refusal) => Same {
                number: u32::from(refusal),
                same: 0,
            },
        }
    }
}

// Whether two readings gave the same patch; a file that is turned away has none, and `==` would call two such the same.
#[tactic(auto, unfolding(crate::specs::Card::same_of, crate::specs::Card::same_as, crate::specs::Reader::reading_as, limits::specs::Refusals::line_of))]
pub fn same_patch(
    a: Result<Patch, PatchError>,
    b: Result<Patch, PatchError>,
) -> Result<bool, Refusal>
    ensures { same_as result ≡ same_of (reading_as a) (reading_as b) }
{
    Ok(a?.is_same(b?))
}
