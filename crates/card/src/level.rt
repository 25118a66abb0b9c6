// Which amount gives a level.
ghost use Rattle.std.specs.Prelude.{◌≡◌, length};
ghost use Rattle.block.specs.Numbers.{numbers_of};
ghost use Rattle.levels.specs.Found.{found_answer, found_of};

use block::numbers_of;
use levels::{Found, Search, check, searched};
use limits::Refusal;

// `levels::amount_for` with sine and arctangent numbers on a slice, which is read once it is known to be
// long enough.
#[tactic(auto, using(levels::proofs::LevelLaws::lines_passed, limits::proofs::LengthLaws::long_enough, levels::proofs::LevelLaws::passed), unfolding(limits::specs::Refusals::number_of))]
fn amount_for(
    mode: u32,
    sample: f32,
    wanted: f32,
    tolerance: f32,
    numbers: &[f32],
) -> Result<u32, Refusal>
    ensures { found_answer result ≡ found_of (numbers_of numbers.now).sin (length numbers.now) mode sample wanted tolerance }
{
    check(mode, numbers.len())?;
    searched(Search {
        numbers: numbers_of(numbers),
        mode,
        sample,
        wanted,
        tolerance,
    })
}

#[unsafe(no_mangle)]
pub extern "C" fn shaper_amount_for(
    mode: u32,
    sample: f32,
    wanted: f32,
    tolerance: f32,
    numbers: &[f32],
) -> Found
    ensures { result ≡ found_of (numbers_of numbers.now).sin (length numbers.now) mode sample wanted tolerance }
{
    Found::from(amount_for(mode, sample, wanted, tolerance, numbers))
}
