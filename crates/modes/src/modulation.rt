// The source that a mode reads, and what it does with it.
ghost use Rattle.std.specs.Prelude.{◌≡◌};
ghost use Rattle.modes.specs.Table.{source_of, fm_type_of, modulated_of};

use crate::facts::{FmType, Modulated, Source};
use limits::Refusal;

// The source that the mode reads at audio rate, if it's an inter-oscillator mode. A table by C's number: the arms are
// values, no steps to run.
pub fn source(mode: u32) -> Result<Option<Source>, Refusal>
    ensures { result ≡ source_of mode }
{
    match mode {
        0..=32 => Ok(None),
        33 | 39 | 45 | 51 | 58 | 64 => Ok(Some(Source::Osc1)),
        34 | 40 | 46 | 52 | 59 | 65 => Ok(Some(Source::Osc2)),
        35 | 41 | 47 | 53 | 60 | 66 => Ok(Some(Source::Noise)),
        36 | 42 | 48 | 54 | 61 | 67 => Ok(Some(Source::Sub)),
        37 | 43 | 49 | 55 | 62 | 68 => Ok(Some(Source::Filter1)),
        38 | 44 | 50 | 56 | 63 | 69 => Ok(Some(Source::Filter2)),
        57 => Ok(Some(Source::Own)),
        _ => Err(Refusal::Mode),
    }
}

// The FM type that an FM mode modulates with, if it's one. A table too: values, no steps.
pub fn fm_type(mode: u32) -> Result<Option<FmType>, Refusal>
    ensures { result ≡ fm_type_of mode }
{
    match mode {
        0..=32 | 51..=69 => Ok(None),
        33..=38 => Ok(Some(FmType::ThruZero)),
        39..=44 => Ok(Some(FmType::Exponential)),
        45..=50 => Ok(Some(FmType::Linear)),
        _ => Err(Refusal::Mode),
    }
}

// What the mode does with its source, if it reads one. A table too: values, no steps.
pub fn modulated(mode: u32) -> Result<Option<Modulated>, Refusal>
    ensures { result ≡ modulated_of mode }
{
    match mode {
        0..=32 => Ok(None),
        33..=38 => Ok(Some(Modulated::Fm(FmType::ThruZero))),
        39..=44 => Ok(Some(Modulated::Fm(FmType::Exponential))),
        45..=50 => Ok(Some(Modulated::Fm(FmType::Linear))),
        51..=57 => Ok(Some(Modulated::PhaseDistortion)),
        58..=63 => Ok(Some(Modulated::Am)),
        64..=69 => Ok(Some(Modulated::Ring)),
        _ => Err(Refusal::Mode),
    }
}
