// The stages of a call, in place: `Decimator::process`.
ghost use Rattle.std.specs.Prelude.{◌≡◌, ◌+◌, ◌<◌, ◌≤◌, length};
ghost use Rattle.grid.specs.Lanes.{Each};
ghost use Rattle.limits.specs.Lengths.{coefs_length};
ghost use Rattle.limits.specs.Refusals.{answer_of};
ghost use Rattle.halfband.specs.Halfband.{views, stages_of};
ghost use Rattle.halfband.specs.Floats.{floats};
ghost use Rattle.halfband.specs.Promises.{Taken};
ghost use Rattle.halfband.specs.Decimated.{lane_part, Decimated};

use crate::design::Designs;
use crate::refusal::{CallNumbers, check};
use crate::stage::stage;
use grid::Lane;
use limits::{COEFS_LENGTH, Refusal};

// How many stages a factor takes.
#[tactic(auto, unfolding(crate::specs::Halfband::stages_of))]
pub fn stages_of(factor: u32) -> usize
    ensures { result ≡ stages_of factor }
{
    match factor {
        2 => 1,
        4 => 2,
        8 => 3,
        _ => 0,
    }
}

// One lane's whole share of a call: the stages, the one farthest from the output first.
pub fn decimate_lane(
    designs: &Designs,
    stages: usize,
    frames: usize,
    lane: Lane,
    buffer: &mut [f32],
    state: &mut [f32],
)
    requires { Taken designs.now stages frames lane.lanes (length buffer.old) (length state.old) }
    ensures { Each lane.lanes lane.index (lane.index + 1) (λ _. lane_part designs.now stages frames)
        (views floats lane.lanes buffer.old state.old) (views floats lane.lanes buffer.new state.new) }
{
    // By number, which is also the block of the state and how often the frames double: the designs of so many stages,
    // with their numbers and from the last on, are no plainer.
    for from_last in (0..stages).rev() {
        stage(
            &designs.stages[from_last],
            from_last,
            frames << from_last,
            lane,
            buffer,
            state,
        );
    }
}

// The first `active` of `lanes` lanes.
fn decimate_lanes(
    designs: &Designs,
    stages: usize,
    frames: usize,
    lanes: usize,
    active: usize,
    buffer: &mut [f32],
    state: &mut [f32],
)
    requires taken { Taken designs.now stages frames lanes (length buffer.old) (length state.old) }
    requires active_le_lanes { active ≤ lanes }
    ensures { Each lanes 0 active (λ _. lane_part designs.now stages frames)
        (views floats lanes buffer.old state.old) (views floats lanes buffer.new state.new) }
{
    // A lane is made of its number: there is no list of lanes to go through.
    for index in 0..active {
        decimate_lane(
            designs,
            stages,
            frames,
            Lane { lanes, index },
            buffer,
            state,
        );
    }
}

// Decimates `buffer` in place by the call's factor: it holds frames × factor rows of `lanes` lanes, and
// afterwards its first `frames` rows are the result. Lanes from `active` on are left alone. An accepted
// call's frames.
#[tactic(auto, unfolding(limits::specs::Refusals::number_of, limits::specs::Refusals::answer_of), using(crate::proofs::RefusalLaws::taken_of))]
pub fn process(
    designs: Designs,
    call: CallNumbers,
    buffer: &mut [f32],
    state: &mut [f32],
) -> Result<u32, Refusal>
    ensures { Decimated designs coefs_length call.factor call.lanes call.active call.frames
        buffer.old state.old buffer.new state.new (answer_of result) }
{
    let [last, middle, first] = designs.stages;
    let counts = [last.count, middle.count, first.count];
    check(call, counts, COEFS_LENGTH, buffer.len(), state.len())?;
    decimate_lanes(
        &designs,
        stages_of(call.factor),
        call.frames as usize,
        call.lanes as usize,
        call.active as usize,
        buffer,
        state,
    );
    Ok(call.frames)
}
