// A patch as files hold it, in whole numbers, and as the card takes it.
ghost use Rattle.std.specs.Prelude.{◌≡◌};
ghost use Rattle.files.specs.Patch.{card_amount, card_character, same_slot, same_patch};

use floats::nearest_u32;

// A slot's mode, its amount in hundredths of a percent and its character in ten-thousandths.
#[derive(Clone, Copy, Default)]
pub struct PatchSlot {
    pub mode: u32,
    pub hundredths: u32,
    pub tenthousandths: u32,
}

impl PatchSlot {
    // Whether both agree in mode and amount. No derive's `==`, which would ask the character too.
    fn is_same(self, other: PatchSlot) -> bool
        ensures { result ≡ same_slot self other }
    {
        (self.mode == other.mode) & (self.hundredths == other.hundredths)
    }
}

// Two fields and not an array: the laws speak of each slot, and an array's would each ask its length.
#[derive(Clone, Copy, Default)]
pub struct Patch {
    pub slot0: PatchSlot,
    pub slot1: PatchSlot,
}

impl Patch {
    // Whether both slots agree in mode and amount: likewise no derive's.
    pub fn is_same(self, other: Patch) -> bool
        ensures { result ≡ same_patch self other }
    {
        self.slot0.is_same(other.slot0) & self.slot1.is_same(other.slot1)
    }
}

// The amount in percent.
#[tactic(auto, unfolding(crate::specs::Patch::card_amount))]
pub fn card_amount(hundredths: u32) -> f32
    ensures { result ≡ card_amount hundredths }
{
    nearest_u32(hundredths) / 100.0
}

// The character, 0 to 1.
#[tactic(auto, unfolding(crate::specs::Patch::card_character))]
pub fn card_character(tenthousandths: u32) -> f32
    ensures { result ≡ card_character tenthousandths }
{
    nearest_u32(tenthousandths) / 10000.0
}
