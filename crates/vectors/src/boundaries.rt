// Document 01's boundary values: mode 69 passes, 70 is 1; 64 lanes pass, 65 is 3; 4,096 frames, or points of
// a picture, pass, 4,097 is 4; a curve of 1,025 entries passes, one of 1,024 is 7. The calls are asked with
// lengths alone.
use block::{CallNumbers, ReadLengths, WriteLengths};
use limits::{ControlLengths, Refusal};
use spans::{PrepareLengths, PrepareNumbers};

// What a call is asked for, and the number that C hears of it.
#[derive(Clone, Copy)]
struct Boundary {
    mode: u32,
    lanes: u32,
    frames: u32,
    entries: usize,
    number: u32,
}

// Every boundary passed at once.
const PASSED: Boundary = Boundary {
    mode: 69,
    lanes: 64,
    frames: 4096,
    entries: 1025,
    number: 0,
};

// As long as the longest buffer that a call asks for: 8 x 4,096 x 64 cells.
const LONG: usize = 0x20_0000;

const LONG_CONTROLS: ControlLengths = ControlLengths {
    base0: LONG,
    base1: LONG,
    mod0: LONG,
    mod1: LONG,
    source0: LONG,
    source1: LONG,
};

fn check_preparation(b: Boundary) -> Result<(), Refusal> {
    let block = PrepareNumbers {
        mode0: b.mode,
        mode1: b.mode,
        factor: 8,
        lanes: b.lanes,
        active: b.lanes,
        frames: b.frames,
        rate: 192000,
    };
    let lengths = PrepareLengths {
        controls: LONG_CONTROLS,
        curve: b.entries,
        inner: LONG,
        stretch: LONG,
        add: LONG,
    };
    spans::check_prepare(block, lengths)
}

fn check_run(b: Boundary) -> Result<(), Refusal> {
    let call = CallNumbers {
        mode0: b.mode,
        mode1: b.mode,
        factor: 8,
        lanes: b.lanes,
        active: b.lanes,
        frames: b.frames,
        first: 0,
        count: b.frames,
        rate: 192000,
        count0: 12,
        count1: 12,
        count2: 12,
    };
    let reads = ReadLengths {
        controls: LONG_CONTROLS,
        curve: b.entries,
        cycle: LONG,
        words: LONG,
        steps: LONG,
        inner: LONG,
        coefs: LONG,
        numbers: LONG,
    };
    let writes = WriteLengths {
        output: LONG,
        work: LONG,
        pairs: LONG,
        fm: LONG,
        last: LONG,
        dec: LONG,
    };
    block::check(call, reads, writes)
}

fn check_decimation(b: Boundary) -> Result<(), Refusal> {
    let call = halfband::CallNumbers {
        factor: 8,
        lanes: b.lanes,
        active: b.lanes,
        frames: b.frames,
    };
    halfband::check(call, [12, 12, 12], LONG, LONG, LONG)
}

// Of a picture of as many points as the others have frames.
fn check_picture(b: Boundary) -> Result<(), Refusal> {
    preview::check(b.mode, b.mode, b.frames as usize, b.entries, LONG, LONG)
}

fn check_curve(b: Boundary) -> Result<(), Refusal> {
    let whole = [0.0f32; 1025];
    curve::value(whole.get(..b.entries).unwrap_or(&whole), 0.5)?;
    Ok(())
}

// Whether each call answers this number, or 0 where it has no such line.
fn is_kept(b: Boundary) -> bool {
    let number = |outcome: Result<(), Refusal>| outcome.err().map_or(0, u32::from);
    let among = |lines: &[u32]| if lines.contains(&b.number) {
        b.number
    } else {
        0
    };
    number(check_preparation(b)) == b.number
        && number(check_run(b)) == b.number
        && number(check_decimation(b)) == among(&[3, 4])
        && number(check_curve(b)) == among(&[7])
        && number(check_picture(b)) == among(&[1, 4, 7])
}

// How many there are: every boundary passed at once, then each of them missed.
pub const BOUNDARIES: u64 = 5;

// How many of them are kept.
pub fn boundaries_kept() -> u64 {
    let boundaries = [
        PASSED,
        Boundary {
            mode: 70,
            number: 1,
            ..PASSED
        },
        Boundary {
            lanes: 65,
            number: 3,
            ..PASSED
        },
        Boundary {
            frames: 4097,
            number: 4,
            ..PASSED
        },
        Boundary {
            entries: 1024,
            number: 7,
            ..PASSED
        },
    ];
    boundaries.iter().filter(|b| is_kept(**b)).count() as u64
}
