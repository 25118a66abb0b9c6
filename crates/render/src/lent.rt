// What a block run is lent to read.
use controls::ControlSlices;
use curve::Curve;
use reads::Cycle;

// The buffers that have rows: what drives the slots, the phase words and their steps, slot 1's prepared slope.
#[derive(Clone, Copy)]
pub struct Rows<'a> {
    pub controls: ControlSlices<'a>,
    pub words: &'a [u32],
    pub steps: &'a [u32],
    pub inner: &'a [f32],
}

// All of them once a run is accepted: the tables are known to be long enough. That the rows are is asked of them with
// the settings, by which it goes.
#[derive(Clone, Copy)]
pub struct AcceptedSlices<'a> {
    pub rows: Rows<'a>,
    pub curve: Curve<'a>,
    pub cycle: Cycle<'a>,
}

// All of them. The two tables are of any length here, since a run turns down those that are too short.
#[derive(Clone, Copy)]
pub struct LentSlices<'a> {
    pub rows: Rows<'a>,
    pub curve: &'a [f32],
    pub cycle: &'a [f32],
}
