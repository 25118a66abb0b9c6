// Runs of the decimator: a call whose designs, buffer and state are remade from a seed, and a hash of
// what it leaves.
use crate::answer::float;
use crate::cells::{cell_of, tamed, unit};
use crate::hash::Hash;
use crate::random::Random;
use halfband::{CallNumbers, Designs, card_designs, designs_of, process};
use limits::Answer;

// The floats that a section may end at.
fn special(draw: u32) -> f32 {
    match draw >> 29 {
        0 => 0.0,
        1 => -0.0,
        2 => float(0x0000_0001),
        3 => float(0x807f_ffff),
        4 => float(0x7f7f_ffff),
        5 => float(0x7f80_0000),
        6 => float(0xff80_0000),
        _ => f32::NAN,
    }
}

// A sample or a cell of the state.
fn cell(seed: u32, draw: u32) -> f32 {
    cell_of(seed, draw, special(draw), float(tamed(draw)))
}

// A coefficient: from 0 to 1, and with an odd seed as a cell.
fn coefficient(seed: u32, draw: u32) -> f32 {
    if seed % 2 == 0 {
        unit(draw)
    } else {
        cell(seed, draw)
    }
}

// The card's designs for a quarter of the seeds; otherwise the drawn ones, with counts from 1 to 12.
pub fn designs(seed: u32, random: &mut Random) -> Designs {
    let [_, count0, count1, count2] = random.draw().to_le_bytes();
    let coefs: [f32; 36] = random.cells(|draw| coefficient(seed, draw));
    if seed / 2 % 4 == 0 {
        return card_designs();
    }
    let counts = [count0, count1, count2].map(|count| 1 + u32::from(count % 12));
    designs_of(&coefs, counts)
}

// All cells of the buffer and of the state, then the call's number and its frames.
pub fn decimate_hash(seed: u32, call: CallNumbers) -> u64 {
    let mut random = Random::new(seed);
    let designs = designs(seed, &mut random);
    let mut buffer: [f32; 2048] = random.cells(|draw| cell(seed, draw));
    let mut state: [f32; 640] = random.cells(|draw| cell(seed, draw));
    let answer = Answer::from(process(designs, call, &mut buffer, &mut state));
    let mut hash = Hash::new();
    hash.put_floats(&buffer);
    hash.put_floats(&state);
    hash.put(answer.number);
    hash.put(answer.frames);
    hash.value
}
