// What a slot shapes with at one rendered frame.
ghost use Rattle.std.specs.Prelude.{◌≡◌};
ghost use Rattle.voice.specs.Power.{power_of};

use crate::power::power_of;
use phase::Slot;

// What drives a slot: its amount, 0 to 1, and what it hears, if it has a source.
#[derive(Clone, Copy)]
pub struct Control {
    pub amount: f32,
    pub source: Option<f32>,
}

// A slot with what drives it, and the power of two that it takes at that amount.
#[derive(Clone, Copy)]
pub struct Driven {
    pub slot: Slot,
    pub control: Control,
    pub power: f32,
    ghost powered: { power ≡ power_of slot.mode control.amount },
}

// Both slots of a lane.
#[derive(Clone, Copy)]
pub struct Slots {
    pub slot0: Driven,
    pub slot1: Driven,
}

impl Driven {
    // With the power worked out.
    pub fn new(slot: Slot, control: Control) -> Driven
        ensures slot { result.slot ≡ slot }
        ensures control { result.control ≡ control }
    {
        let power = power_of(slot.mode, control.amount);
        Driven {
            slot,
            control,
            power,
        }
    }
}
