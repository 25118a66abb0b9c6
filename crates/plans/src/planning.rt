// A line's numbers and what they plan.
ghost use Rattle.std.specs.Prelude.{◌≡◌, Some, Err, IfOk};
ghost use Rattle.std.specs.Option.{MatchOption};
ghost use Rattle.limits.specs.Refusals.{number_of};
ghost use Rattle.plan.specs.Plan.{plan_refusal, one_frame};
ghost use Rattle.text.specs.Decimal.{seven_of};
ghost use Rattle.plans.specs.declared.planning.NoPlan.TheVariants.{NotSevenNumbers};
ghost use Rattle.plans.specs.Planning.{in_order, plans_of, IsPlanOf};
ghost use Rattle.plans.specs.Table.{meaning_of, reason_text};

use limits::Refusal;
use plan::{BlockNumbers, Plan, checked_plan};
use std::fmt;
use text::seven_of;

// A block's numbers, its plan, and that of one of its host frames.
#[derive(Clone, Copy)]
pub struct LinePlan {
    pub numbers: BlockNumbers,
    pub block: Plan,
    pub frame: Plan,
}

// Why a line has no plan.
#[derive(Clone, Copy, Debug)]
pub enum NoPlan {
    NotSevenNumbers,
    TurnedDown(Refusal),
}

impl fmt::Display for NoPlan {
    ghost output = { λ reason. Some (reason_text reason) };

    #[tactic(auto, unfolding(crate::specs::Table::reason_text))]
    fn fmt<W: fmt::Write>(&self, f: &mut fmt::Formatter<W>) -> fmt::Result {
        match *self {
            NoPlan::NotSevenNumbers => f.write_str("not seven decimal numbers below 4294967296"),
            NoPlan::TurnedDown(refusal) => {
                let number = u32::from(refusal);
                let meaning = meaning(refusal);
                write!(f, "refused {number}{meaning}")
            }
        }
    }
}

// In the header's words, as far as a plan can meet a refusal.
#[tactic(auto, unfolding(crate::specs::Table::meaning_of))]
fn meaning(refusal: Refusal) -> &'static str
    ensures { result.now ≡ meaning_of refusal }
{
    match refusal {
        Refusal::Factor => ": the factor is not 1, 2, 4 or 8",
        Refusal::Lanes => ": the lane count is not 1..64, or the active lanes are more",
        Refusal::Frames => ": a block above 4,096 frames",
        Refusal::Design => ": a design's count is not 1..12",
        _ => "",
    }
}

// The seven numbers in a line's order. No `From`: neither type is this crate's.
#[tactic(auto, unfolding(crate::specs::Planning::in_order))]
fn in_order(values: [u32; 7]) -> BlockNumbers
    ensures { result ≡ in_order values }
{
    let [lanes, active, factor, frames, count0, count1, count2] = values;
    BlockNumbers {
        lanes,
        active,
        factor,
        frames,
        count0,
        count1,
        count2,
    }
}

fn one_frame(b: BlockNumbers) -> BlockNumbers
    ensures { result ≡ one_frame b }
{
    BlockNumbers { frames: 1, ..b }
}

#[tactic(auto, unfolding(crate::specs::Planning::plans_of, limits::specs::Refusals::number_of, plan::specs::Plan::plan_refusal, limits::specs::Lines::first_of))]
fn plans_of(numbers: BlockNumbers) -> Result<LinePlan, Refusal>
    ensures ok { IfOk result (λ plans. plans ≡ plans_of numbers) }
    ensures number { number_of result ≡ plan_refusal numbers }
{
    let block = checked_plan(numbers)?;
    let frame = checked_plan(one_frame(numbers))?;
    Ok(LinePlan {
        numbers,
        block,
        frame,
    })
}

// What a line plans, or why it has no plan.
#[tactic(auto, unfolding(crate::specs::Planning::IsPlanOf, limits::specs::Refusals::number_of))]
pub fn line_plan(line: &[u8]) -> Result<LinePlan, NoPlan>
    ensures { MatchOption (seven_of line.now) (result ≡ Err NotSevenNumbers) (λ values. IsPlanOf (in_order values) result) }
{
    let values = seven_of(line).ok_or(NoPlan::NotSevenNumbers)?;
    plans_of(in_order(values)).map_err(NoPlan::TurnedDown)
}
