// The two ways to render a block's range.
use block::{BlockSettings, LentSlices, block_run};
use call_answers::block_calls::short;
use call_answers::block_cells::Voices;
use call_answers::faults::{Fault, cut_mut};
use lane_run::lane_run;
use limits::Refusal;
use shaper::Range;

// What a call is asked, and its fault, if it has one: the buffers that it changes may be lent a cell short, by the
// numbers of the block itself.
#[derive(Clone, Copy)]
pub struct Asked<'a> {
    pub settings: BlockSettings,
    pub range: Range,
    pub active: u32,
    pub lent: LentSlices<'a>,
    pub fault: Option<Fault>,
    pub frames: u32,
}

// The block run, or one lane's.
fn run(asked: &Asked<'_>, lane: Option<u32>, v: &mut Voices) -> Result<u32, Refusal> {
    let lanes = asked.settings.shaper.lanes;
    let output = cut_mut(
        asked.fault,
        Fault::Output,
        &mut v.output,
        short(asked.frames, lanes),
    );
    let state = cut_mut(asked.fault, Fault::State, &mut v.state, short(72, lanes));
    match lane {
        None => block_run(
            asked.settings,
            asked.range,
            asked.active,
            &asked.lent,
            output,
            &mut v.work,
            &mut v.pairs,
            &mut v.fm,
            &mut v.last,
            state,
        ),
        Some(lane) => lane_run(
            asked.settings,
            asked.range,
            asked.active,
            lane,
            &asked.lent,
            output,
            &mut v.work,
            &mut v.pairs,
            &mut v.fm,
            &mut v.last,
            state,
        ),
    }
}

// A call for each active lane, the last one first, which leave what the block run leaves: what they answer, all
// alike; nothing where two differ. With no active lane there is none to call.
fn by_lanes(asked: &Asked<'_>, voices: &mut Voices) -> Option<Result<u32, Refusal>> {
    if asked.active == 0 {
        return Some(run(asked, None, voices));
    }
    // A flag and no early return: all lanes are called, also where two differ.
    let mut alike = true;
    let mut outcome = None;
    // A lane is what a call is asked, and no index.
    for lane in (0..asked.active).rev() {
        let next = Some(run(asked, Some(lane), voices));
        alike = alike && (outcome == None || outcome == next);
        outcome = next;
    }
    if alike { outcome } else { None }
}

// The calls that make a range: one for the block, or one for each lane.
#[derive(Clone, Copy)]
pub enum Calls {
    Block,
    Lanes,
}

impl Calls {
    // What they answer; nothing where that is no one answer.
    pub fn render(self, asked: &Asked<'_>, voices: &mut Voices) -> Option<Result<u32, Refusal>> {
        match self {
            Calls::Block => Some(run(asked, None, voices)),
            Calls::Lanes => by_lanes(asked, voices),
        }
    }
}
