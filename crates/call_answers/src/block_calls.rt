// The calls about a block's ranges: which frames they are about, and how much of its buffers they are lent.
use crate::faults::{Fault, put};
use crate::numbers::below;
use shaper::{Range, Settings};

// From `first` on the rest of the block, what is left of 32 host frames, or some or none.
pub fn range_of(frames: u32, draw: u32, first: u32, fault: Option<Fault>) -> Range {
    let left = frames.wrapping_sub(first);
    let count = match draw >> 30 {
        0 => left,
        1 => (32 - first % 32).min(left),
        _ => below(draw / 0x1000, left.wrapping_add(1)),
    };
    Range {
        first,
        count: put(fault, Fault::Count, left.wrapping_add(1), count),
    }
}

// A cell less than so many rows of lanes.
pub fn short(rows: u32, lanes: u32) -> usize {
    rows.wrapping_mul(lanes).wrapping_sub(1) as usize
}

// A cell less than a block's rendered rows.
pub fn short_rendered(s: Settings) -> usize {
    short(s.frames.wrapping_mul(s.factor), s.lanes)
}
