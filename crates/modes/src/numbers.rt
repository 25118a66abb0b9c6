// The modes by name: the number of each, in the order of `Mode`. The Rust's names in upper case, with `_` before each
// later capital, as the C header has them behind `SHAPER_`. Constants and no enum: a mode is what C passes, and calls
// say what they make of any number, where an enum would ask more of callers.
ghost use Rattle.std.specs.Prelude.{◌≡◌};
ghost use Rattle.modes.specs.Table.{numbers};

pub const OFF: u32 = 0;

pub const SYNC: u32 = 1;

pub const PINCH_IN: u32 = 2;

pub const PINCH_OUT: u32 = 3;

pub const PINCH: u32 = 4;

pub const PULSE_WIDTH: u32 = 5;

pub const LEAN_RIGHT: u32 = 6;

pub const LEAN_LEFT: u32 = 7;

pub const LEAN: u32 = 8;

pub const FLIP: u32 = 9;

pub const MIRROR: u32 = 10;

pub const REMAP_DRAWN: u32 = 11;

pub const REMAP_MIRRORED: u32 = 12;

pub const REMAP_SINE: u32 = 13;

pub const REMAP_QUAD: u32 = 14;

pub const QUANTISE: u32 = 15;

pub const ODD_EVEN: u32 = 16;

pub const LOW_PASS: u32 = 17;

pub const HIGH_PASS: u32 = 18;

pub const VALVE: u32 = 19;

pub const SOFT_CLIP: u32 = 20;

pub const HARD_CLIP: u32 = 21;

pub const DIODE1: u32 = 22;

pub const DIODE2: u32 = 23;

pub const FOLD: u32 = 24;

pub const SINE_FOLD: u32 = 25;

pub const ZERO_SQUARE: u32 = 26;

pub const ASYMMETRIC: u32 = 27;

pub const RECTIFY: u32 = 28;

pub const SINE_SHAPER: u32 = 29;

pub const PEDAL: u32 = 30;

pub const TAPE: u32 = 31;

pub const SOFT_SATURATE: u32 = 32;

pub const FM1: u32 = 33;

pub const FM2: u32 = 34;

pub const FM_NOISE: u32 = 35;

pub const FM_SUB: u32 = 36;

pub const FM_FILTER1: u32 = 37;

pub const FM_FILTER2: u32 = 38;

pub const FM_EXP1: u32 = 39;

pub const FM_EXP2: u32 = 40;

pub const FM_EXP_NOISE: u32 = 41;

pub const FM_EXP_SUB: u32 = 42;

pub const FM_EXP_FILTER1: u32 = 43;

pub const FM_EXP_FILTER2: u32 = 44;

pub const FM_LIN1: u32 = 45;

pub const FM_LIN2: u32 = 46;

pub const FM_LIN_NOISE: u32 = 47;

pub const FM_LIN_SUB: u32 = 48;

pub const FM_LIN_FILTER1: u32 = 49;

pub const FM_LIN_FILTER2: u32 = 50;

pub const PD1: u32 = 51;

pub const PD2: u32 = 52;

pub const PD_NOISE: u32 = 53;

pub const PD_SUB: u32 = 54;

pub const PD_FILTER1: u32 = 55;

pub const PD_FILTER2: u32 = 56;

pub const PD_SELF: u32 = 57;

pub const AM1: u32 = 58;

pub const AM2: u32 = 59;

pub const AM_NOISE: u32 = 60;

pub const AM_SUB: u32 = 61;

pub const AM_FILTER1: u32 = 62;

pub const AM_FILTER2: u32 = 63;

pub const RM1: u32 = 64;

pub const RM2: u32 = 65;

pub const RM_NOISE: u32 = 66;

pub const RM_SUB: u32 = 67;

pub const RM_FILTER1: u32 = 68;

pub const RM_FILTER2: u32 = 69;

// `Mode::ALL`.
const ALL: [u32; 70] = [
    OFF,
    SYNC,
    PINCH_IN,
    PINCH_OUT,
    PINCH,
    PULSE_WIDTH,
    LEAN_RIGHT,
    LEAN_LEFT,
    LEAN,
    FLIP,
    MIRROR,
    REMAP_DRAWN,
    REMAP_MIRRORED,
    REMAP_SINE,
    REMAP_QUAD,
    QUANTISE,
    ODD_EVEN,
    LOW_PASS,
    HIGH_PASS,
    VALVE,
    SOFT_CLIP,
    HARD_CLIP,
    DIODE1,
    DIODE2,
    FOLD,
    SINE_FOLD,
    ZERO_SQUARE,
    ASYMMETRIC,
    RECTIFY,
    SINE_SHAPER,
    PEDAL,
    TAPE,
    SOFT_SATURATE,
    FM1,
    FM2,
    FM_NOISE,
    FM_SUB,
    FM_FILTER1,
    FM_FILTER2,
    FM_EXP1,
    FM_EXP2,
    FM_EXP_NOISE,
    FM_EXP_SUB,
    FM_EXP_FILTER1,
    FM_EXP_FILTER2,
    FM_LIN1,
    FM_LIN2,
    FM_LIN_NOISE,
    FM_LIN_SUB,
    FM_LIN_FILTER1,
    FM_LIN_FILTER2,
    PD1,
    PD2,
    PD_NOISE,
    PD_SUB,
    PD_FILTER1,
    PD_FILTER2,
    PD_SELF,
    AM1,
    AM2,
    AM_NOISE,
    AM_SUB,
    AM_FILTER1,
    AM_FILTER2,
    RM1,
    RM2,
    RM_NOISE,
    RM_SUB,
    RM_FILTER1,
    RM_FILTER2,
];

// Every mode in the order of the menu. Its contract holds the names to the table.
#[tactic(auto, unfolding(crate::specs::Table::numbers))]
pub fn all() -> [u32; 70]
    ensures { result ≡ numbers }
{
    ALL
}
