// The power of two that a slot takes, which goes by its mode and its amount alone: a render works it out
// once for all rendered frames of a host frame, or of a range.
ghost use Rattle.std.specs.Prelude.{◌≡◌};
ghost use Rattle.voice.specs.Power.{power_of};

use phase::map_power;
use wave::{in_wave, wave_power};

#[tactic(auto, unfolding(crate::specs::Power::power_of), using(floats::specs::Steps::steps))]
pub fn power_of(mode: u32, a: f32) -> f32
    ensures { result ≡ power_of mode a }
{
    if in_wave(mode) {
        return wave_power(mode, a);
    }
    map_power(mode, a)
}
