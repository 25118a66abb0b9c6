// Calls about one lane or about a block's spans, made of draws: at the most four lanes and 72 host frames.
ghost use Rattle.std.specs.Prelude.{◌<◌, ◌≤◌};

use crate::faults::{Fault, fault_of_call, put};
use crate::numbers::{
    Draws, active_of, active_with, below, character_of, frames_of, lanes_of, rate_of, step_of,
};
use answers::cells::cell;
use answers::phases::around;
use answers::runs::ModesRun;
use answers::waves::sample;
use grid::place;
use phase::Slot;
use shaper::{Range, Settings, SingleCall};

// The numbers of a block, and of the range and the frames in it that a call is about. The factor is
// 2^`shift`.
#[derive(Clone, Copy)]
struct Place {
    shift: u32,
    lanes: u32,
    active: u32,
    frames: u32,
    first: u32,
    left: u32,
    count: u32,
    frame: u32,
    ghost shifted: { shift < 4 },
    ghost some: { 0 < lanes },
    ghost few: { lanes ≤ 4 },
}

impl Place {
    fn new(sizes: u32, range: u32) -> Place {
        let shift = sizes % 4;
        let lanes = lanes_of(sizes);
        let frames = frames_of(sizes, 72);
        let first = below(range, frames);
        let left = frames.wrapping_sub(first);
        let some = below(range / 0x1000, left).wrapping_add(1);
        let count = if range < 0x8000_0000 { left } else { some };
        let host = below(range / 0x1_0000, count);
        Place {
            shift,
            lanes,
            active: active_of(sizes, lanes),
            frames,
            first,
            left,
            count,
            frame: (host << shift).wrapping_add(below(range / 0x100, 1 << shift)),
        }
    }

    // How many rendered frames the range has.
    fn rendered(self) -> u32 {
        self.count << self.shift
    }

    // How many frames from `frame` on a stretch is asked for: none, one or all; to the end of the range's
    // first 32 host frames or one more, if the range goes on behind it; or some.
    fn asked(self, how: u32, draw: u32) -> u32 {
        let rest = self.rendered().wrapping_sub(self.frame);
        let edge = (32 - self.first % 32) << self.shift;
        match how % 8 {
            0 => 0,
            1 => 1,
            2 => rest,
            _ => if self.frame < edge && edge < self.rendered() {
                edge.wrapping_sub(self.frame).wrapping_add(draw % 2)
            } else {
                below(draw, rest.wrapping_add(1))
            },
        }
    }

    // A cell less than a row.
    fn short_row(self) -> usize
        ensures { result < self.lanes }
    {
        self.lanes as usize - 1
    }

    // A cell less than a row for each 32 host frames.
    fn short_rows(self) -> usize {
        let row = self.frames.wrapping_sub(1) / 32 % 4;
        place(row as usize, self.lanes as usize, self.short_row())
    }
}

// A word made of a draw, not converted: every other time around a quarter or a 2,048th of the cycle.
fn word_of(how: u32, draw: u32) -> u32 {
    match how % 4 {
        0 => around(draw & 0xc000_0000, draw),
        1 => around(draw & 0xffe0_0000, draw),
        _ => draw,
    }
}

// What a call is asked; each kind of call takes some of it. Where the fault is a buffer that is short, `row` and
// `rows` are a cell less than one row, and than a row for each 32 host frames.
#[derive(Clone, Copy)]
pub struct Call {
    pub settings: Settings,
    pub active: u32,
    pub lane: u32,
    pub range: Range,
    pub frame: u32,
    pub asked: u32,
    pub rate: u32,
    pub word: u32,
    pub step: u32,
    pub x: f32,
    pub fault: Option<Fault>,
    pub row: usize,
    pub rows: usize,
}

impl Call {
    pub fn new(run: ModesRun, d: Draws) -> Call {
        let seed = run.seed;
        let how = d.how;
        let fault = fault_of_call(how);
        let p = Place::new(d.sizes, d.range);
        let over = p.rendered().wrapping_sub(p.frame).wrapping_add(1);
        let asked = put(fault, Fault::Frame, 0, p.asked(how / 0x4_0000, d.place / 4));
        Call {
            settings: Settings {
                slot0: Slot {
                    mode: put(fault, Fault::Mode0, 70, run.mode0),
                    character: character_of(seed, d.character0),
                },
                slot1: Slot {
                    mode: put(fault, Fault::Mode1, 70, run.mode1),
                    character: character_of(seed, d.character1),
                },
                factor: put(fault, Fault::Factor, 3, 1 << p.shift),
                lanes: p.lanes,
                frames: put(fault, Fault::NoFrames, 0, p.frames),
                numbers: lanes::rust_numbers(),
            },
            active: active_with(fault, p.lanes, p.active),
            lane: put(fault, Fault::Lane, p.active, below(how, p.active)),
            range: Range {
                first: p.first,
                count: put(fault, Fault::Count, p.left.wrapping_add(1), p.count),
            },
            frame: put(fault, Fault::Frame, p.rendered(), p.frame),
            asked: put(fault, Fault::Asked, over, asked),
            rate: put(fault, Fault::Rate, 7999, rate_of(d.rate)),
            word: word_of(how / 0x1_0000, d.place),
            step: step_of(seed, d.step),
            x: cell(seed, d.x, sample(d.x)),
            fault,
            row: p.short_row(),
            rows: p.short_rows(),
        }
    }

    // What the calls about one rendered frame take of it.
    pub fn single(self) -> SingleCall {
        SingleCall {
            settings: self.settings,
            active: self.active,
            lane: self.lane,
            range: self.range,
            frame: self.frame,
        }
    }
}
