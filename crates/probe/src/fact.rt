// The mode facts for C, which hears a kind by its number: 256 and the refusal's number for one that is refused. So the
// functions here answer numbers, made of the enums of `modes` where C is met and nowhere before.
ghost use Rattle.std.specs.Prelude.{◌≡◌, ◌+◌, MatchResult};
ghost use Rattle.std.specs.Result.{ForOk};
ghost use Rattle.limits.specs.Refusals.{line_of};
ghost use Rattle.modes.specs.Table.{source_of, fm_type_of, modulated_of, stage_of, oversampled_of, distortion_of};
ghost use Rattle.probe.specs.Codes.{code_of, source_code, fm_type_code, modulated_code, stage_code, flag_code};

use limits::Refusal;
use modes::{FmType, Modulated, Source};

// What a fact says, by its number.
#[tactic(auto, unfolding(limits::specs::Refusals::line_of))]
fn coded<T, F: FnOnce(T) -> u32>(fact: Result<T, Refusal>, number: F) -> u32
    requires { ForOk fact (F.pre number) }
    ensures { MatchResult fact (λ said. F.post number said result) (λ refusal. result ≡ 256 + line_of refusal) }
{
    match fact {
        Ok(said) => number(said),
        Err(refusal) => 256 + u32::from(refusal),
    }
}

// For C: the discriminant, and 0 for nothing. One for each enum: no trait stands for the cast.
fn source_number(source: Option<Source>) -> u32
    ensures { result ≡ source_code source }
{
    source.map_or(0, |source| source as u32)
}

// For C: the discriminant, and 0 for nothing.
fn fm_type_number(fm_type: Option<FmType>) -> u32
    ensures { result ≡ fm_type_code fm_type }
{
    fm_type.map_or(0, |fm_type| fm_type as u32)
}

// For C, and 0 for nothing: FM carries its type, so that there is no discriminant to cast.
fn modulated_number(modulated: Option<Modulated>) -> u32
    ensures { result ≡ modulated_code modulated }
{
    match modulated {
        None => 0,
        Some(Modulated::Fm(_)) => 1,
        Some(Modulated::PhaseDistortion) => 2,
        Some(Modulated::Am) => 3,
        Some(Modulated::Ring) => 4,
    }
}

// For C: a source by its number.
#[unsafe(no_mangle)]
pub extern "C" fn probe_source(mode: u32) -> u32
    ensures { result ≡ code_of source_code (source_of mode) }
{
    coded(modes::source(mode), source_number)
}

// For C: an FM type by its number.
#[unsafe(no_mangle)]
pub extern "C" fn probe_fm_type(mode: u32) -> u32
    ensures { result ≡ code_of fm_type_code (fm_type_of mode) }
{
    coded(modes::fm_type(mode), fm_type_number)
}

// For C: what is modulated, by its number.
#[unsafe(no_mangle)]
pub extern "C" fn probe_modulated(mode: u32) -> u32
    ensures { result ≡ code_of modulated_code (modulated_of mode) }
{
    coded(modes::modulated(mode), modulated_number)
}

// For C: a stage by its number.
#[unsafe(no_mangle)]
pub extern "C" fn probe_stage(mode: u32) -> u32
    ensures { result ≡ code_of stage_code (stage_of mode) }
{
    coded(modes::stage(mode), |stage| stage as u32)
}

#[unsafe(no_mangle)]
pub extern "C" fn probe_oversampled(mode: u32) -> u32
    ensures { result ≡ code_of flag_code (oversampled_of mode) }
{
    coded(modes::oversampled(mode), u32::from)
}

#[unsafe(no_mangle)]
pub extern "C" fn probe_distortion(mode: u32) -> u32
    ensures { result ≡ code_of flag_code (distortion_of mode) }
{
    coded(modes::distortion(mode), u32::from)
}
