// `PhaseRun::stretch`: how much faster than its phase a lane reads.
ghost use Rattle.std.specs.Prelude.{◌≡◌, ◌≤◌, length};
ghost use Rattle.std.specs.Float.{nan};
ghost use Rattle.grid.specs.Cells.{column};
ghost use Rattle.limits.specs.Lengths.{spans_of};
ghost use Rattle.limits.specs.Refusals.{valued_of};
ghost use Rattle.spans.specs.Asked.{span_of, faster_by, faster_of, Faster};
ghost use Rattle.spans.specs.Promises.{Asks};

use crate::refusal::{StretchNumbers, check_stretch};
use crate::rows::LaneRows;
use floats::nearest_u32;
use grid::Lane;
use lanes::max;
use limits::{Refusal, SUB_BLOCK, spans_of};

// What the inter-oscillator modes add is absolute, so the ratio to the step is taken here.
#[tactic(auto, unfolding(crate::specs::Asked::faster_by), using(floats::specs::Steps::taken, floats::specs::Steps::left))]
fn faster_by(steepest: f32, added: f32, step: u32) -> f32
    ensures { result ≡ faster_by steepest added step }
{
    if (added <= 0.0) | (step == 0) {
        return steepest;
    }
    let increment = nearest_u32(step);
    max(steepest, (increment + added) / increment)
}

// The sub-block that a rendered frame of a range falls in.
fn span_of(factor: u32, first: u32, frame: u32) -> usize
    requires { (1 ≤ factor) × (first ≤ 4096) × (frame ≤ 32768) }
    ensures { result ≡ span_of factor first frame }
{
    (first + frame / factor) as usize / SUB_BLOCK
}

// Asked for none, it looks at its first frame.
#[tactic(auto, unfolding(crate::specs::Asked::faster_of), using(floats::specs::Steps::step))]
fn faster_of(call: StretchNumbers, stretch: &[f32], add: &[f32]) -> f32
    requires { Asks call.factor call.first (spans_of call.frames) call.lanes call.lane call.asked_first call.asked (length stretch.now) (length add.now) }
    ensures { result ≡ faster_of call.factor call.first
        (column nan call.lanes call.lane (spans_of call.frames) stretch.now)
        (column nan call.lanes call.lane (spans_of call.frames) add.now) call.asked_first call.asked call.step }
{
    let from = span_of(call.factor, call.first, call.asked_first);
    let last = call.asked_first + call.asked.max(1) - 1;
    let to = span_of(call.factor, call.first, last);
    let rows = LaneRows {
        lane: Lane {
            lanes: call.lanes as usize,
            index: call.lane as usize,
        },
        all: spans_of(call.frames as usize),
        from,
        count: to + 1 - from,
    };
    faster_by(rows.most(1.0, stretch), rows.most(0.0, add), call.step)
}

// How much faster than its phase a lane reads, and the range's host frames.
#[tactic(auto, using(crate::proofs::RefusalLaws::asks_of), unfolding(limits::specs::Refusals::number_of, limits::specs::Refusals::valued_of))]
pub fn stretch(call: StretchNumbers, stretch: &[f32], add: &[f32]) -> Result<(u32, f32), Refusal>
    ensures { Faster call.factor call.lanes call.active call.lane call.frames call.first call.count call.asked_first call.asked call.step
        stretch.now add.now (valued_of result) }
{
    check_stretch(call, stretch.len(), add.len())?;
    Ok((call.count, faster_of(call, stretch, add)))
}
