// When a picture is turned down.
ghost use Rattle.std.specs.Prelude.{◌≡◌};
ghost use Rattle.limits.specs.Refusals.{number_of};
ghost use Rattle.preview.specs.Refusal.{preview_short, preview_refusal};

use limits::{
    CURVE_LENGTH, CYCLE_LENGTH, NUMBERS_LENGTH, Refusal, check_lines, modes_bad, points_bad, short,
};

// Line 7.
fn preview_short(curve: usize, cycle: usize, numbers: usize) -> bool
    ensures { result ≡ preview_short curve cycle numbers }
{
    short(CURVE_LENGTH, curve) || short(CYCLE_LENGTH, cycle) || short(NUMBERS_LENGTH, numbers)
}

// The first line that a picture breaks, if it breaks one. The last three arguments are lengths.
#[tactic(auto, unfolding(crate::specs::Refusal::preview_refusal, limits::specs::Refusals::line_of))]
pub fn check(
    mode0: u32,
    mode1: u32,
    points: usize,
    curve: usize,
    cycle: usize,
    numbers: usize,
) -> Result<(), Refusal>
    ensures { number_of result ≡ preview_refusal mode0 mode1 points curve cycle numbers }
{
    check_lines(&[
        (modes_bad(mode0, mode1), Refusal::Mode),
        (points_bad(points), Refusal::Frames),
        (preview_short(curve, cycle, numbers), Refusal::ShortRead),
    ])
}
