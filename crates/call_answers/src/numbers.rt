// The numbers that calls about a lane, about a block's spans and about its ranges are made of alike: draws,
// and what is made of one draw.
ghost use Rattle.std.specs.Prelude.{◌≡◌, ◌%◌, ◌<◌, ◌≤◌};

use crate::faults::{Fault, put};
use answers::cells::cell;
use answers::phases::fraction;
use answers::random::Random;

// The draws that a call is made of.
#[derive(Clone, Copy)]
pub struct Draws {
    pub sizes: u32,
    pub range: u32,
    pub how: u32,
    pub rate: u32,
    pub place: u32,
    pub step: u32,
    pub character0: u32,
    pub character1: u32,
    pub x: u32,
}

impl Draws {
    pub fn new(random: &mut Random) -> Draws {
        let [
            sizes,
            range,
            how,
            rate,
            place,
            step,
            character0,
            character1,
            x,
        ] = random.draws::<9>();
        Draws {
            sizes,
            range,
            how,
            rate,
            place,
            step,
            character0,
            character1,
            x,
        }
    }
}

// One of `n` numbers from 0 on; `n` is never 0.
pub fn below(draw: u32, n: u32) -> u32
    ensures { 0 < n → result ≡ draw % n }
{
    draw.checked_rem(n).unwrap_or(0)
}

pub fn lanes_of(sizes: u32) -> u32
    ensures { (1 ≤ result) × (result ≤ 4) }
{
    1 + sizes / 4 % 4
}

pub fn active_of(sizes: u32, lanes: u32) -> u32 {
    lanes.wrapping_sub(below(sizes / 0x100, lanes))
}

// A block's host frames: one time of four 6 at the most.
pub fn frames_of(sizes: u32, most: u32) -> u32 {
    let most = if sizes / 0x1000 % 4 == 0 { 6 } else { most };
    below(sizes / 0x1_0000, most).wrapping_add(1)
}

// Words a rendered frame: 0, to 1/64 of a cycle, or with an odd seed any.
pub fn step_of(seed: u32, draw: u32) -> u32 {
    if draw % 8 == 0 {
        0
    } else if seed % 2 == 0 {
        draw >> 6
    } else {
        draw
    }
}

pub fn rate_of(draw: u32) -> u32
    ensures { (8000 ≤ result) × (result ≤ 192000) }
{
    8000 + draw % 184001
}

pub fn character_of(seed: u32, draw: u32) -> f32 {
    cell(seed, draw, fraction(draw))
}

// The number of active lanes as a call with the fault has it.
pub fn active_with(fault: Option<Fault>, lanes: u32, active: u32) -> u32 {
    let active = put(fault, Fault::NoneActive, 0, active);
    put(fault, Fault::ManyActive, lanes.wrapping_add(1), active)
}
