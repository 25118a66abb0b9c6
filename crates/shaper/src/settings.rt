// The numbers that the calls about a lane share and that belong to no lane. The host rate stands beside
// them, since the shaped sample takes none.
use lanes::Numbers;
use phase::Slot;

// `frames` is the block's count of host frames, `lanes` how many numbers a row has. The sine and
// arctangent numbers travel with them.
#[derive(Clone, Copy)]
pub struct Settings {
    pub slot0: Slot,
    pub slot1: Slot,
    pub factor: u32,
    pub lanes: u32,
    pub frames: u32,
    pub numbers: Numbers,
}

// Host frames of a block: the first, and how many.
#[derive(Clone, Copy)]
pub struct Range {
    pub first: u32,
    pub count: u32,
}

// A lane at a rendered frame, which is counted from the range's start: what a call about a single one is about.
#[derive(Clone, Copy)]
pub struct SingleCall {
    pub settings: Settings,
    pub active: u32,
    pub lane: u32,
    pub range: Range,
    pub frame: u32,
}
