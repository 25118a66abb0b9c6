// Which amount gives this level: the least amount of a slot, in hundredths of a percent, for which plain
// `distort` lands within a tolerance of the wanted output.
#![tactic(auto)]

pub mod search;

ghost use Rattle.std.specs.Prelude.{◌≡◌};
ghost use Rattle.limits.specs.Lengths.{numbers_length};
ghost use Rattle.limits.specs.Refusals.{number_of};
ghost use Rattle.levels.specs.Levels.{within_at};
ghost use Rattle.levels.specs.Found.{found_answer, level_refusal, searched_of, found_of};

use limits::{NUMBERS_LENGTH, Refusal, check_lines, short};
use modes::is_distortion;
pub use search::Search;

// For C, which has no `Result`: the number of a refusal, 0 where there is none, and the amount in hundredths of a
// percent, 0 where the call is turned down. No `Answer` of limits, since C names the value in its own way.
#[repr(C)]
#[derive(Clone, Copy)]
pub struct Found {
    pub number: u32,
    pub hundredths: u32,
}

impl From<Result<u32, Refusal>> for Found {
    ghost from_gives = { λ r f. f ≡ found_answer r };

    #[tactic(auto, unfolding(crate::specs::Found::found_answer))]
    fn from(outcome: Result<u32, Refusal>) -> Found {
        match outcome {
            Ok(hundredths) => Found {
                number: 0,
                hundredths,
            },
            Err(refusal) => Found {
                number: u32::from(refusal),
                hundredths: 0,
            },
        }
    }
}

// Lines 1 and 7, for a mode and how many sine and arctangent numbers are lent.
#[tactic(auto, unfolding(crate::specs::Found::level_refusal, limits::specs::Refusals::line_of))]
pub fn check(mode: u32, numbers: usize) -> Result<(), Refusal>
    ensures { number_of result ≡ level_refusal mode numbers }
{
    check_lines(&[
        (!is_distortion(mode), Refusal::Mode),
        (short(NUMBERS_LENGTH, numbers), Refusal::ShortRead),
    ])
}

// What the search gives, once the call has got past these lines.
#[tactic(auto, unfolding(crate::specs::Found::found_answer, crate::specs::Found::searched_of, crate::specs::Parts::least_of, limits::specs::Refusals::line_of), using(floats::specs::Steps::by_taken, floats::specs::Steps::by_left, limits::proofs::SearchLaws::least_some))]
pub fn searched(search: Search) -> Result<u32, Refusal>
    ensures { found_answer result ≡ searched_of (within_at search.numbers.sin search.mode search.sample search.wanted search.tolerance) }
{
    match search.least() {
        Some(hundredths) => Ok(u32::from(hundredths)),
        None => Err(Refusal::NoAmount),
    }
}

// The least amount that serves. Turned down: a mode that is no distortion, and where no amount serves.
#[tactic(auto, unfolding(crate::specs::Found::found_answer, crate::specs::Found::found_of, limits::specs::Refusals::number_of), using(floats::specs::Steps::by_taken, floats::specs::Steps::by_left))]
pub fn amount_for(search: Search) -> Result<u32, Refusal>
    ensures { found_answer result ≡ found_of search.numbers.sin numbers_length search.mode search.sample search.wanted search.tolerance }
{
    check(search.mode, NUMBERS_LENGTH)?;
    searched(search)
}
