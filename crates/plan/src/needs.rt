// The plan of a block that is made as one range.
ghost use Rattle.std.specs.Prelude.{◌≡◌, ◌≤◌, IfOk};
ghost use Rattle.limits.specs.Refusals.{number_of};
ghost use Rattle.plan.specs.Counting.{lane_steps};
ghost use Rattle.plan.specs.Plan.{Within, most_reads, steps_of, plan_refusal, nothing, needed, plan_of, floats_of};

use halfband::{CallNumbers, check_numbers};
use limits::{Refusal, carry_length, last_length, pairs_length, rendered_length, state_length};
use reads::MAX_READS;

// What a plan is asked for: lane count and active lanes, factor, the block's host frames, and how many
// sections each of the three designs has.
#[derive(Clone, Copy)]
pub struct BlockNumbers {
    pub lanes: u32,
    pub active: u32,
    pub factor: u32,
    pub frames: u32,
    pub count0: u32,
    pub count1: u32,
    pub count2: u32,
}

// For C, which has no `Result`: the number of a refusal, 0 where there is none; the block's frames; the floats of
// work, decimator state, filter pairs, FM carry and `last`; the most list reads; the half-band section steps of the
// active lanes. include/shaper.h has the same fields in this order; a further size goes to the end.
#[repr(C)]
#[derive(Clone, Copy)]
pub struct Plan {
    pub number: u32,
    pub frames: u32,
    pub work: u32,
    pub state: u32,
    pub pairs: u32,
    pub fm: u32,
    pub last: u32,
    pub reads: u32,
    pub steps: u32,
}

// Lines 2, 3, 4 and 6.
#[tactic(auto, unfolding(crate::specs::Plan::plan_refusal, limits::specs::Lines::first_of))]
fn check(b: BlockNumbers) -> Result<(), Refusal>
    ensures { number_of result ≡ plan_refusal b }
{
    let call = CallNumbers {
        factor: b.factor,
        lanes: b.lanes,
        active: b.active,
        frames: b.frames,
    };
    check_numbers(call, [b.count0, b.count1, b.count2])
}

// The numbers of a block that is not turned down.
#[derive(Clone, Copy)]
struct Accepted {
    block: BlockNumbers,
    ghost within: { Within block },
}

impl Accepted {
    // One lane's section steps. The last stage, of design 0, makes each frame once, the one before it twice.
    #[tactic(auto, using(crate::proofs::StepLaws::steps_none, crate::proofs::StepLaws::steps_one, crate::proofs::StepLaws::steps_two, crate::proofs::StepLaws::steps_three, crate::proofs::StepLaws::one_most, crate::proofs::StepLaws::two_most, crate::proofs::StepLaws::three_most), unfolding(crate::specs::Counting::lane_steps, halfband::specs::Halfband::stages_of))]
    fn lane_steps(self) -> u32
        ensures value { result ≡ lane_steps self.block.factor self.block.frames self.block.count0 self.block.count1 self.block.count2 }
        ensures upper_bound { result ≤ 344064 }
    {
        let BlockNumbers {
            factor,
            frames,
            count0,
            count1,
            count2,
            ..
        } = self.block;
        match factor {
            2 => count0 * frames,
            4 => (count0 + 2 * count1) * frames,
            8 => (count0 + 2 * count1 + 4 * count2) * frames,
            _ => 0,
        }
    }

    // The steps of all active lanes.
    #[tactic(auto, unfolding(crate::specs::Plan::steps_of))]
    fn section_steps(self) -> u32
        ensures { result ≡ steps_of self.block }
    {
        self.block.active * self.lane_steps()
    }

    // MAX_READS for each list, and a list for each rendered frame of each active lane.
    #[tactic(auto, unfolding(crate::specs::Plan::most_reads))]
    fn most_reads(self) -> u32
        ensures { result ≡ most_reads self.block }
    {
        let b = self.block;
        MAX_READS as u32 * (b.active * (b.frames * b.factor))
    }

    #[tactic(auto, unfolding(crate::specs::Plan::needed))]
    fn needs(self) -> Plan
        ensures { result ≡ needed self.block }
    {
        let b = self.block;
        Plan {
            number: 0,
            frames: b.frames,
            work: rendered_length(b.frames, b.factor, b.lanes) as u32,
            state: state_length(b.lanes) as u32,
            pairs: pairs_length(b.lanes) as u32,
            fm: carry_length(b.lanes) as u32,
            last: last_length(b.lanes) as u32,
            reads: self.most_reads(),
            steps: self.section_steps(),
        }
    }
}

// A refusal: its number, and zeros.
#[tactic(auto, unfolding(crate::specs::Plan::nothing))]
fn refusal(number: u32) -> Plan
    ensures { result ≡ nothing number }
{
    Plan {
        number,
        frames: 0,
        work: 0,
        state: 0,
        pairs: 0,
        fm: 0,
        last: 0,
        reads: 0,
        steps: 0,
    }
}

// What a block of these numbers needs, or why it is turned down. In C's struct, whose number is 0 then: one without it
// would have its other eight fields again. `Planned` and `TurnedDown` (specs/Planned, proved in proofs/Planned) have
// what the answer means for the block's runs.
#[tactic(auto, using(crate::proofs::Passed::within, limits::proofs::LineLaws::handed_on), unfolding(crate::specs::Plan::plan_of, limits::specs::Refusals::number_of))]
pub fn checked_plan(b: BlockNumbers) -> Result<Plan, Refusal>
    ensures ok { IfOk result (λ plan. plan ≡ plan_of b) }
    ensures number { number_of result ≡ plan_refusal b }
{
    check(b)?;
    Ok(Accepted { block: b }.needs())
}

// The same for C: of a refusal its number, and zeros.
#[tactic(auto, using(limits::proofs::LineLaws::some_line), unfolding(crate::specs::Plan::plan_of, limits::specs::Refusals::number_of))]
pub fn plan_of(b: BlockNumbers) -> Plan
    ensures { result ≡ plan_of b }
{
    match checked_plan(b) {
        Ok(plan) => plan,
        Err(turned_down) => refusal(u32::from(turned_down)),
    }
}

// All floats of a plan together.
#[tactic(auto, unfolding(crate::specs::Plan::floats_of))]
pub fn floats_of(p: Plan) -> u64
    ensures { result ≡ floats_of p }
{
    p.work as u64 + p.state as u64 + p.pairs as u64 + p.fm as u64 + p.last as u64
}
