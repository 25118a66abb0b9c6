// The mode facts as numbers, since a line of the vectors has a word for each answer. Probe has the same for C: its
// functions are exports, and none of the programs' crates stands on them.
use limits::Refusal;
use modes::Modulated;

// Numbers of what a fact says, 0 for nothing. One for each enum: no trait stands for the cast.
pub(crate) fn source(mode: u32) -> Result<u32, Refusal> {
    Ok(modes::source(mode)?.map_or(0, |source| source as u32))
}

pub(crate) fn fm_type(mode: u32) -> Result<u32, Refusal> {
    Ok(modes::fm_type(mode)?.map_or(0, |fm_type| fm_type as u32))
}

pub(crate) fn modulated(mode: u32) -> Result<u32, Refusal> {
    Ok(match modes::modulated(mode)? {
        None => 0,
        Some(Modulated::Fm(_)) => 1,
        Some(Modulated::PhaseDistortion) => 2,
        Some(Modulated::Am) => 3,
        Some(Modulated::Ring) => 4,
    })
}

pub(crate) fn stage(mode: u32) -> Result<u32, Refusal> {
    Ok(modes::stage(mode)? as u32)
}

// What is refused is 256 and the refusal's number.
pub(crate) fn coded(answer: Result<u32, Refusal>) -> u32 {
    answer.unwrap_or_else(|refusal| 256 + refusal as u32)
}
