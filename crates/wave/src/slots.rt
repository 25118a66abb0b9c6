// A slot's setting for one sample, and the sample shaped by it.
ghost use Rattle.std.specs.Prelude.{◌≡◌, true};
ghost use Rattle.wave.specs.Slot.{in_wave, is_filter, is_modulated, is_level, level_setting, setting_of, wave_power, am_of, ring_of, level_of, shape_of};

use crate::filters::{Filtered, Svf, cutoff_harmonic, damping, filter};
use crate::smoothing::{gain, smooth};
use lanes::Numbers;
use modes::numbers::{HIGH_PASS, LOW_PASS};
use modes::{Modulated, Stage};

// What a slot does to one sample.
#[derive(Clone, Copy)]
pub enum Setting {
    Filter { harmonic: f32, damping: f32 },
    Curve { amount: f32, drive: f32 },
    Level { amount: f32, source: f32 },
}

// Whether a slot with this mode acts on the value. `in_phase` of voice is the same of the other stage: with the stage
// beside the mode it would be the fact itself.
#[tactic(auto, unfolding(crate::specs::Slot::in_wave))]
pub fn in_wave(mode: u32) -> bool
    ensures { result ≡ in_wave mode }
{
    matches!(modes::stage(mode), Ok(Stage::Wave))
}

#[tactic(auto, unfolding(crate::specs::Slot::is_filter, modes::specs::Choice::case_of))]
pub fn is_filter(mode: u32) -> bool
    ensures { result ≡ is_filter mode }
{
    matches!(mode, LOW_PASS | HIGH_PASS)
}

#[tactic(auto, unfolding(crate::specs::Slot::is_modulated))]
pub fn is_modulated(mode: u32) -> bool
    ensures { result ≡ is_modulated mode }
{
    matches!(modes::modulated(mode), Ok(Some(_)))
}

// Whether it is AM or Ring, of the modes in the wave stage: those keep no state.
#[tactic(auto, unfolding(crate::specs::Slot::is_level))]
pub fn is_level(mode: u32) -> bool
    ensures { result ≡ is_level mode }
{
    !is_filter(mode) & is_modulated(mode)
}

// The power of two in a slot's setting, which goes by the mode and the amount alone, so that a render
// works it out once for many samples: a filter's harmonic, a curve's drive, and 1 for AM and Ring.
#[tactic(auto, unfolding(crate::specs::Slot::wave_power), using(floats::specs::Steps::steps))]
pub fn wave_power(mode: u32, a: f32) -> f32
    ensures { result ≡ wave_power mode a }
{
    if is_filter(mode) {
        return cutoff_harmonic(mode, a);
    }
    if is_modulated(mode) {
        return 1.0;
    }
    gain(mode, a)
}

// The setting of AM and Ring: none without a source.
pub fn level_setting(a: f32, source: Option<f32>) -> Option<Setting>
    ensures { result ≡ level_setting a source }
{
    source.map(|source| Setting::Level { amount: a, source })
}

// The setting of a slot at amount `a` (0 to 1), whose power is `power`; a slot outside the wave stage has none, and AM
// and Ring have none where they have no source.
#[tactic(auto, unfolding(crate::specs::Slot::setting_of, crate::specs::Slot::filter_setting, crate::specs::Slot::curve_setting, crate::specs::Slot::wave_power), using(floats::specs::Steps::steps))]
pub fn setting_with(
    mode: u32,
    a: f32,
    power: f32,
    character: f32,
    source: Option<f32>,
) -> Option<Setting>
    requires { in_wave mode ≡ true → power ≡ wave_power mode a }
    ensures { result ≡ setting_of mode a character source }
{
    if !in_wave(mode) {
        return None;
    }
    if is_filter(mode) {
        return Some(Setting::Filter {
            harmonic: power,
            damping: damping(character),
        });
    }
    if is_modulated(mode) {
        return level_setting(a, source);
    }
    Some(Setting::Curve {
        amount: a,
        drive: power,
    })
}

// The same, with the power worked out.
pub fn setting_of(mode: u32, a: f32, character: f32, source: Option<f32>) -> Option<Setting>
    ensures { result ≡ setting_of mode a character source }
{
    setting_with(mode, a, wave_power(mode, a), character, source)
}

#[tactic(auto, unfolding(crate::specs::Slot::am_of))]
fn am(a: f32, s: f32, x: f32) -> f32
    ensures { result ≡ am_of a s x }
{
    x * (1.0 - a * 0.5 * (1.0 - s))
}

#[tactic(auto, unfolding(crate::specs::Slot::ring_of))]
fn ring(a: f32, s: f32, x: f32) -> f32
    ensures { result ≡ ring_of a s x }
{
    x * (1.0 - a + a * s)
}

// AM and Ring: the level case shapes the sample, and every other case leaves it.
#[tactic(auto, unfolding(crate::specs::Slot::level_of))]
pub fn level(mode: u32, setting: Option<Setting>, x: f32) -> f32
    ensures { result ≡ level_of mode setting x }
{
    let Some(Setting::Level { amount, source }) = setting else {
        return x;
    };
    match modes::modulated(mode) {
        Ok(Some(Modulated::Am)) => am(amount, source, x),
        Ok(Some(Modulated::Ring)) => ring(amount, source, x),
        _ => x,
    }
}

// One slot on one sample: `x` shaped by its setting, through the slot's `state`, for a note whose phase
// moves `increment` cycles a sample.
#[tactic(auto, unfolding(crate::specs::Slot::shape_of))]
pub fn shape(
    numbers: Numbers,
    mode: u32,
    setting: Option<Setting>,
    increment: f32,
    x: f32,
    state: Svf,
) -> Filtered
    ensures { result ≡ shape_of numbers.sin mode setting increment x state }
{
    match setting {
        None => Filtered { y: x, state },
        Some(Setting::Filter { harmonic, damping }) => {
            filter(numbers, mode, harmonic, increment, damping, x, state)
        }
        Some(Setting::Curve { amount, drive }) => smooth(
            numbers,
            mode,
            amount,
            x * drive,
            x,
            state,
        ),
        Some(Setting::Level { .. }) => Filtered {
            y: level(mode, setting, x),
            state,
        },
    }
}
