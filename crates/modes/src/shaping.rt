// Where in the oscillator a mode acts, and how it is rendered.
ghost use Rattle.std.specs.Prelude.{◌≡◌};
ghost use Rattle.modes.specs.Table.{stage_of, oversampled_of, distortion_of, is_distortion};

use crate::facts::Stage;
use limits::Refusal;

// The stage that the mode acts in. A table by C's number: the arms are values, no steps to run.
pub fn stage(mode: u32) -> Result<Stage, Refusal>
    ensures { result ≡ stage_of mode }
{
    match mode {
        0 => Ok(Stage::Off),
        1..=16 | 33..=57 => Ok(Stage::Phase),
        17..=32 | 58..=69 => Ok(Stage::Wave),
        _ => Err(Refusal::Mode),
    }
}

// Whether the oscillator renders it oversampled: all but Off, OddEven and the filters.
pub fn oversampled(mode: u32) -> Result<bool, Refusal>
    ensures { result ≡ oversampled_of mode }
{
    match mode {
        0 | 16..=18 => Ok(false),
        1..=15 | 19..=69 => Ok(true),
        _ => Err(Refusal::Mode),
    }
}

// Whether it's a distortion: a memoryless curve applied to the value.
pub fn distortion(mode: u32) -> Result<bool, Refusal>
    ensures { result ≡ distortion_of mode }
{
    match mode {
        0..=18 | 33..=69 => Ok(false),
        19..=32 => Ok(true),
        _ => Err(Refusal::Mode),
    }
}

// The same as a bool: a number above 69 is no distortion.
#[tactic(auto, unfolding(crate::specs::Table::is_distortion))]
pub fn is_distortion(mode: u32) -> bool
    ensures { result ≡ is_distortion mode }
{
    distortion(mode).unwrap_or(false)
}
