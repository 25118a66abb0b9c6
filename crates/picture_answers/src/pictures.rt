// Runs of pictures: a cycle, the cells that they are drawn into and then what each picture is made of are
// remade from a seed, and a hash takes what each answers and leaves. Some are made to be turned down.
ghost use Rattle.std.specs.Prelude.{◌≤◌};

use answers::cells::cell;
use answers::hash::Hash;
use answers::phases::fraction;
use answers::random::Random;
use answers::runs::{ModesRun, hash_of};
use answers::waves::{percent, sample};
use limits::{Answer, Refusal};
use phase::Slot;
use preview::PanelSlot;

// What is wrong with a picture.
#[derive(Clone, Copy, PartialEq, Eq)]
enum Fault {
    Slot0,
    Slot1,
    Curve,
    Cycle,
}

// The draws that a picture is made of.
#[derive(Clone, Copy)]
struct Draws {
    how: u32,
    points: u32,
    amount0: u32,
    amount1: u32,
    character0: u32,
    character1: u32,
}

impl Draws {
    fn new(random: &mut Random) -> Draws {
        let [how, points, amount0, amount1, character0, character1] = random.draws::<6>();
        Draws {
            how,
            points,
            amount0,
            amount1,
            character0,
            character1,
        }
    }

    // One picture of eight has one.
    fn fault(self) -> Option<Fault> {
        match self.how >> 27 {
            0 => Some(Fault::Slot0),
            1 => Some(Fault::Slot1),
            2 => Some(Fault::Curve),
            3 => Some(Fault::Cycle),
            _ => None,
        }
    }

    // How many points the picture has: 100, a few, or up to 64.
    fn points(self) -> usize
        ensures { result ≤ 100 }
    {
        match self.how % 8 {
            0 => 100,
            1 => (self.points % 4) as usize,
            _ => (self.points % 65) as usize,
        }
    }
}

// A slot, whose mode is 70 if it is at fault.
fn slot_of(seed: u32, at_fault: bool, mode: u32, draw: u32) -> Slot {
    Slot {
        mode: if at_fault { 70 } else { mode },
        character: cell(seed, draw, fraction(draw)),
    }
}

// The whole buffer, or all cells but the last if it is at fault.
fn lent(at_fault: bool, cells: &[f32]) -> &[f32] {
    match cells.split_last() {
        Some((_, others)) if at_fault => others,
        _ => cells,
    }
}

fn preview(
    run: ModesRun,
    d: Draws,
    curve: &[f32; 1025],
    cycle: &[f32; 2048],
    picture: &mut [f32],
) -> Result<u32, Refusal> {
    let seed = run.seed;
    let fault = d.fault();
    preview::preview(
        PanelSlot {
            slot: slot_of(seed, fault == Some(Fault::Slot0), run.mode0, d.character0),
            percent: cell(seed, d.amount0, percent(d.amount0)),
        },
        PanelSlot {
            slot: slot_of(seed, fault == Some(Fault::Slot1), run.mode1, d.character1),
            percent: cell(seed, d.amount1, percent(d.amount1)),
        },
        lanes::rust_numbers(),
        lent(fault == Some(Fault::Curve), curve),
        lent(fault == Some(Fault::Cycle), cycle),
        picture,
    )
}

// A picture of the first cells, put to the hash with all of them.
fn turn(
    run: ModesRun,
    d: Draws,
    curve: &[f32; 1025],
    cycle: &[f32; 2048],
    cells: &mut [f32; 104],
    hash: &mut Hash,
) {
    let answer = Answer::from(preview(run, d, curve, cycle, &mut cells[..d.points()]));
    hash.put(answer.number);
    hash.put(answer.frames);
    hash.put_floats(cells);
}

// A picture finds what the ones before it have left.
pub fn picture_hash(curve: &[f32; 1025], run: ModesRun) -> u64 {
    let seed = run.seed;
    let mut random = Random::new(seed);
    let cycle: [f32; 2048] = random.cells(|draw| cell(seed, draw, sample(draw)));
    let mut cells: [f32; 104] = random.cells(|draw| cell(seed, draw, sample(draw)));
    hash_of(run.count, random, |random, hash| {
        turn(run, Draws::new(random), curve, &cycle, &mut cells, hash);
    })
}
