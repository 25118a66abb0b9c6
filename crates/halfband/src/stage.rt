// One stage on one lane, in place: `Stage::scalar`.
ghost use Rattle.std.specs.Prelude.{◌≡◌, ◌+◌, ◌*◌, ◌<◌, ◌≤◌, length};
ghost use Rattle.grid.specs.Lanes.{Each};
ghost use Rattle.halfband.specs.Halfband.{views, stage};
ghost use Rattle.halfband.specs.Floats.{floats, sections, sections_of};
ghost use Rattle.halfband.specs.Promises.{Stepped, Framed, Run, Room, Loaded, Stored, Rows};

use crate::design::Design;
use grid::Lane;

// Section `i` on one sample: the output, with the input and it in the section's cells.
fn section(c: f32, i: usize, cells: &mut [f32; 24], input: f32) -> f32
    requires { i < 12 }
    ensures { Stepped c i cells.old cells.new input result }
{
    let output = (input - cells[2 * i + 1]) * c + cells[2 * i];
    cells[2 * i] = input;
    cells[2 * i + 1] = output;
    output
}

// One output frame: the sections on a pair of samples.
fn frame<const COUNT: usize>(coefs: &[f32; 12], early: f32, late: f32, cells: &mut [f32; 24]) -> f32
    requires { COUNT ≤ 12 }
    ensures { Framed (sections coefs.now COUNT) cells.old cells.new early late result }
{
    let mut paths = [late, early];
    // With the number of each, which says its cells and on which of the two paths it is.
    for (i, c) in coefs[..COUNT].iter().enumerate() {
        paths[i % 2] = section(*c, i, cells, paths[i % 2]);
    }
    (paths[0] + paths[1]) * 0.5
}

// `frames` output frames from twice as many. The compiler knows the count, and lays the sections out in a row. What is
// asked of the count, the rows and the state's room stands at each function of this file: a `Design` that promised its
// count would ask more of whoever makes one, and a struct around a slice that is lent to be changed would stand in
// every clause.
fn run<const COUNT: usize>(
    design: &Design,
    frames: usize,
    lane: Lane,
    buffer: &mut [f32],
    cells: &mut [f32; 24],
)
    requires count { design.now.count ≡ COUNT }
    requires few { COUNT ≤ 12 }
    requires rows { Rows (length buffer.old) frames lane.lanes }
    ensures { Run (sections_of design.now) lane.lanes lane.index frames
        buffer.old cells.old buffer.new cells.new }
{
    // In place, where no iterator can go: row k is written while rows from 2k on are still to be read.
    for k in 0..frames {
        let early = buffer[lane.place(2 * k)];
        let late = buffer[lane.place(2 * k + 1)];
        buffer[lane.place(k)] = frame::<COUNT>(&design.coefs, early, late, cells);
    }
}

// The same by the design's own count. A const argument can't be worked out, so that each count has its arm.
fn run_counted(
    design: &Design,
    frames: usize,
    lane: Lane,
    buffer: &mut [f32],
    cells: &mut [f32; 24],
)
    requires few { design.now.count ≤ 12 }
    requires rows { Rows (length buffer.old) frames lane.lanes }
    ensures { Run (sections_of design.now) lane.lanes lane.index frames
        buffer.old cells.old buffer.new cells.new }
{
    match design.count {
        0 => run::<0>(design, frames, lane, buffer, cells),
        1 => run::<1>(design, frames, lane, buffer, cells),
        2 => run::<2>(design, frames, lane, buffer, cells),
        3 => run::<3>(design, frames, lane, buffer, cells),
        4 => run::<4>(design, frames, lane, buffer, cells),
        5 => run::<5>(design, frames, lane, buffer, cells),
        6 => run::<6>(design, frames, lane, buffer, cells),
        7 => run::<7>(design, frames, lane, buffer, cells),
        8 => run::<8>(design, frames, lane, buffer, cells),
        9 => run::<9>(design, frames, lane, buffer, cells),
        10 => run::<10>(design, frames, lane, buffer, cells),
        11 => run::<11>(design, frames, lane, buffer, cells),
        _ => run::<12>(design, frames, lane, buffer, cells),
    }
}

// The cells of a stage's sections, loaded: the machine keeps them in registers over the frames.
fn load(count: usize, block: usize, lane: Lane, state: &[f32]) -> [f32; 24]
    requires few { count ≤ 12 }
    requires room { Room (length state.now) block lane.lanes lane.index }
    ensures { Loaded state.now block lane.lanes lane.index (2 * count) result }
{
    let mut cells = [0.0; 24];
    // With the number of each, which says its place: the state's cells of a lane lie `lanes` apart.
    for (i, cell) in cells[..2 * count].iter_mut().enumerate() {
        *cell = state[lane.place(24 * block + i)];
    }
    cells
}

// And stored.
fn store(count: usize, block: usize, lane: Lane, cells: &[f32; 24], state: &mut [f32])
    requires few { count ≤ 12 }
    requires room { Room (length state.old) block lane.lanes lane.index }
    ensures { Stored block lane.lanes lane.index (2 * count) cells.now state.old state.new }
{
    // As in `load`.
    for (i, cell) in cells[..2 * count].iter().enumerate() {
        state[lane.place(24 * block + i)] = *cell;
    }
}

// The stage.
pub fn stage(
    design: &Design,
    block: usize,
    frames: usize,
    lane: Lane,
    buffer: &mut [f32],
    state: &mut [f32],
)
    requires few { design.now.count ≤ 12 }
    requires room { Room (length state.old) block lane.lanes lane.index }
    requires rows { Rows (length buffer.old) frames lane.lanes }
    ensures { Each lane.lanes lane.index (lane.index + 1) (λ _. stage floats (sections_of design.now) block frames)
        (views floats lane.lanes buffer.old state.old) (views floats lane.lanes buffer.new state.new) }
{
    let count = design.count as usize;
    let mut cells = load(count, block, lane, state);
    run_counted(design, frames, lane, buffer, &mut cells);
    store(count, block, lane, &cells, state);
}
