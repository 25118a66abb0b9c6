// When a lane's run is turned down.
ghost use Rattle.std.specs.Prelude.{◌≡◌};
ghost use Rattle.limits.specs.Refusals.{line_of, number_of};
ghost use Rattle.lane_run.specs.Either.{third_of, either_refusal};

use block::{CallNumbers, ReadLengths, WriteLengths, check};
use limits::Refusal;

// Line 3, or the one of the lines before it that holds.
#[tactic(auto, unfolding(limits::specs::Refusals::line_of))]
fn lanes_or(refusal: Refusal) -> Refusal
    ensures { line_of result ≡ third_of (line_of refusal) }
{
    match refusal {
        Refusal::Mode => Refusal::Mode,
        Refusal::Factor => Refusal::Factor,
        _ => Refusal::Lanes,
    }
}

// Where a lane is given, that lane's run, else the block run. A lane that isn't active is line 3, which only
// lines 1 and 2 come before.
#[tactic(auto, using(crate::proofs::LaneLaws::active_number, crate::proofs::LaneLaws::idle_number), unfolding(limits::specs::Refusals::number_of, limits::specs::Refusals::line_of))]
pub fn check_either(
    lane: Option<u32>,
    call: CallNumbers,
    reads: ReadLengths,
    writes: WriteLengths,
) -> Result<(), Refusal>
    ensures { number_of result ≡ either_refusal lane call reads writes }
{
    let active = call.active;
    let outcome = check(call, reads, writes);
    match lane {
        Some(lane) if active <= lane => match outcome {
            Ok(()) => Err(Refusal::Lanes),
            Err(refusal) => Err(lanes_or(refusal)),
        },
        _ => outcome,
    }
}
