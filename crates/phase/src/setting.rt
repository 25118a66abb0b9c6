// What a slot's map is given beside a read.
ghost use Rattle.std.specs.Prelude.{◌≡◌};
ghost use Rattle.phase.specs.Power.{map_power};

use crate::map::Slot;
use crate::power::map_power;
use curve::Curve;
use lanes::Numbers;

// The sine's and the arctangent's numbers, and the lent curve.
#[derive(Clone, Copy)]
pub struct Tables<'a> {
    pub numbers: Numbers,
    pub curve: Curve<'a>,
}

// A slot's map at an amount, 0 to 1, with crossfades `half` cycles either side of each edge, and the power
// that the map has at it.
#[derive(Clone, Copy)]
pub struct MapSetting {
    pub slot: Slot,
    pub amount: f32,
    pub power: f32,
    pub half: f32,
    ghost powered: { power ≡ map_power slot.mode amount },
}

impl MapSetting {
    ghost use Rattle.phase.specs.Setting.{setting_of};

    // With the power worked out.
    #[tactic(auto, unfolding(crate::specs::Setting::setting_of))]
    pub fn new(slot: Slot, amount: f32, half: f32) -> MapSetting
        ensures { result ≡ setting_of slot amount half }
    {
        let power = map_power(slot.mode, amount);
        MapSetting {
            slot,
            amount,
            power,
            half,
        }
    }
}
