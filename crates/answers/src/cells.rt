// The floats of cells and cases. With an even seed they are tame; with an odd one some are special, or any
// pattern.
use crate::answer::float;
use floats::nearest_u32;

// The floats that a rule may end at.
fn special(draw: u32) -> f32 {
    match draw >> 28 {
        0 => 0.0,
        1 => -0.0,
        2 => float(0x0000_0001),
        3 => float(0x3380_0000),
        4 => 0.5,
        5 => float(0x3f7f_ffff),
        6 => 1.0,
        7 => float(0x3f80_0001),
        8 => 2.0,
        9 => 16777216.0,
        10 => float(0x7f7f_ffff),
        11 => float(0x7f80_0000),
        12 => float(0xff80_0000),
        13 => -0.5,
        14 => -1.0,
        _ => f32::NAN,
    }
}

// A number from 0 to 1.
pub(crate) fn unit(draw: u32) -> f32 {
    nearest_u32(draw >> 8) / 16777216.0
}

// A pattern of moderate size.
pub(crate) fn tamed(draw: u32) -> u32 {
    (draw & 0x87ff_ffff) | 0x3800_0000
}

// A float of a case: with an odd seed by `how` tame, special, or any pattern.
pub(crate) fn chosen(seed: u32, how: u32, draw: u32, tame: f32) -> f32 {
    if seed % 2 == 0 {
        return tame;
    }
    match how % 4 {
        0 => tame,
        1 => special(draw),
        _ => float(draw),
    }
}

// A cell: with an odd seed an eighth each is `special` or any pattern.
pub(crate) fn cell_of(seed: u32, draw: u32, special: f32, tame: f32) -> f32 {
    if seed % 2 == 0 {
        return tame;
    }
    match draw % 8 {
        0 => special,
        1 => float(draw),
        _ => tame,
    }
}

// A call's cell.
pub fn cell(seed: u32, draw: u32, tame: f32) -> f32 {
    cell_of(seed, draw, special(draw), tame)
}
