// When `prepare` and `stretch` are turned down.
ghost use Rattle.std.specs.Prelude.{◌≡◌};
ghost use Rattle.limits.specs.Refusals.{number_of};
ghost use Rattle.spans.specs.Refusal.{prepare_reads_short, prepare_writes_short, prepare_refusal, stretch_reads_short, stretch_refusal};

use limits::{
    CURVE_LENGTH, ControlLengths, Refusal, asked_bad, check_lines, controls_short, factor_bad,
    frames_bad, lane_bad, lanes_bad, modes_bad, rate_bad, short, span_length,
};

// The numbers of a block that is prepared.
#[derive(Clone, Copy)]
pub struct PrepareNumbers {
    pub mode0: u32,
    pub mode1: u32,
    pub factor: u32,
    pub lanes: u32,
    pub active: u32,
    pub frames: u32,
    pub rate: u32,
}

// The lengths of what `prepare` is lent.
#[derive(Clone, Copy)]
pub struct PrepareLengths {
    pub controls: ControlLengths,
    pub curve: usize,
    pub inner: usize,
    pub stretch: usize,
    pub add: usize,
}

// Line 7.
fn prepare_reads_short(frames: u32, lanes: u32, l: PrepareLengths) -> bool
    ensures { result ≡ prepare_reads_short frames lanes l }
{
    controls_short(frames, lanes, l.controls) | short(CURVE_LENGTH, l.curve)
}

// Line 8.
fn prepare_writes_short(frames: u32, lanes: u32, l: PrepareLengths) -> bool
    ensures { result ≡ prepare_writes_short frames lanes l }
{
    let cells = span_length(frames, lanes);
    short(cells, l.inner) | short(cells, l.stretch) | short(cells, l.add)
}

#[tactic(auto, unfolding(crate::specs::Refusal::prepare_refusal, limits::specs::Lines::first_of, limits::specs::Refusals::line_of))]
pub fn check_prepare(block: PrepareNumbers, l: PrepareLengths) -> Result<(), Refusal>
    ensures { number_of result ≡ prepare_refusal block.mode0 block.mode1 block.factor block.lanes block.active block.frames block.rate l }
{
    check_lines(&[
        (modes_bad(block.mode0, block.mode1), Refusal::Mode),
        (factor_bad(block.factor), Refusal::Factor),
        (lanes_bad(block.lanes, block.active), Refusal::Lanes),
        (frames_bad(block.frames), Refusal::Frames),
        (rate_bad(block.rate), Refusal::Rate),
        (
            prepare_reads_short(block.frames, block.lanes, l),
            Refusal::ShortRead,
        ),
        (
            prepare_writes_short(block.frames, block.lanes, l),
            Refusal::ShortWrite,
        ),
    ])
}

// What `stretch` is asked: of lane `lane`, over `asked` rendered frames from `asked_first` on, counted from
// the start of the range of `count` host frames from `first` on. The phase moves `step` words a frame.
#[derive(Clone, Copy)]
pub struct StretchNumbers {
    pub factor: u32,
    pub lanes: u32,
    pub active: u32,
    pub lane: u32,
    pub frames: u32,
    pub first: u32,
    pub count: u32,
    pub asked_first: u32,
    pub asked: u32,
    pub step: u32,
}

// Line 7: `stretch` and `add` are the lengths of the two spans.
fn stretch_reads_short(frames: u32, lanes: u32, stretch: usize, add: usize) -> bool
    ensures { result ≡ stretch_reads_short frames lanes stretch add }
{
    let cells = span_length(frames, lanes);
    short(cells, stretch) | short(cells, add)
}

#[tactic(auto, unfolding(crate::specs::Refusal::stretch_refusal, limits::specs::Lines::first_of, limits::specs::Refusals::line_of))]
pub fn check_stretch(call: StretchNumbers, stretch: usize, add: usize) -> Result<(), Refusal>
    ensures { number_of result ≡ stretch_refusal call.factor call.lanes call.active call.lane call.frames call.first call.count call.asked_first call.asked stretch add }
{
    check_lines(&[
        (factor_bad(call.factor), Refusal::Factor),
        (lane_bad(call.lanes, call.active, call.lane), Refusal::Lanes),
        (
            asked_bad(
                call.factor,
                call.frames,
                call.first,
                call.count,
                call.asked_first,
                call.asked,
            ),
            Refusal::Frames,
        ),
        (
            stretch_reads_short(call.frames, call.lanes, stretch, add),
            Refusal::ShortRead,
        ),
    ])
}
