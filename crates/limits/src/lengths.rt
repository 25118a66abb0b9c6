// Lines 7 and 8 of the table: how long buffers are asked to be.
ghost use Rattle.std.specs.Prelude.{◌≡◌, ◌≤◌};
ghost use Rattle.limits.specs.Lengths.{spans_of, host_length, rendered_length, span_length, pairs_length, carry_length, last_length, state_length, shorter, short_lent, short_controls};

// The remap curve.
pub const CURVE_LENGTH: usize = 1025;

// The cycle.
pub const CYCLE_LENGTH: usize = 2048;

// Three designs of twelve coefficients.
pub const COEFS_LENGTH: usize = 36;

// The sine's five numbers and the arctangent's eight.
pub const NUMBERS_LENGTH: usize = 13;

// The host frames that share a row of a span.
pub const SUB_BLOCK: usize = 32;

// The lengths of base, modulation and sources of both slots.
#[derive(Clone, Copy)]
pub struct ControlLengths {
    pub base0: usize,
    pub base1: usize,
    pub mod0: usize,
    pub mod1: usize,
    pub source0: usize,
    pub source1: usize,
}

// How many sub-blocks a block has.
#[tactic(auto, unfolding(crate::specs::Lengths::spans_of))]
pub fn spans_of(frames: usize) -> usize
    ensures { result ≡ spans_of frames }
{
    frames.div_ceil(SUB_BLOCK)
}

// A number for each host frame.
pub fn host_length(frames: u32, lanes: u32) -> usize
    ensures { result ≡ host_length frames lanes }
{
    frames as usize * lanes as usize
}

// A number for each rendered frame.
pub fn rendered_length(frames: u32, factor: u32, lanes: u32) -> usize
    requires { (frames ≤ 4096) × (factor ≤ 8) × (lanes ≤ 64) }
    ensures { result ≡ rendered_length frames factor lanes }
{
    (frames * factor * lanes) as usize
}

// A number for each sub-block.
pub fn span_length(frames: u32, lanes: u32) -> usize
    ensures { result ≡ span_length frames lanes }
{
    spans_of(frames as usize) * lanes as usize
}

// The filter pairs.
pub fn pairs_length(lanes: u32) -> usize
    ensures { result ≡ pairs_length lanes }
{
    4 * lanes as usize
}

// The FM carry.
pub fn carry_length(lanes: u32) -> usize
    ensures { result ≡ carry_length lanes }
{
    2 * lanes as usize
}

// `last`.
pub fn last_length(lanes: u32) -> usize
    ensures { result ≡ last_length lanes }
{
    lanes as usize
}

// The decimator's state.
pub fn state_length(lanes: u32) -> usize
    ensures { result ≡ state_length lanes }
{
    72 * lanes as usize
}

// A buffer of `have` numbers where `need` are asked for.
pub fn short(need: usize, have: usize) -> bool
    ensures { result ≡ shorter need have }
{
    have < need
}

// A modulation or a source. An empty slice means absent.
fn lent_short(need: usize, have: usize) -> bool
    ensures { result ≡ short_lent need have }
{
    !(have == 0) & short(need, have)
}

// Line 7 for base, modulation and sources.
pub fn controls_short(frames: u32, lanes: u32, l: ControlLengths) -> bool
    ensures { result ≡ short_controls frames lanes l }
{
    let n = lanes as usize;
    let rows = host_length(frames, lanes);
    short(n, l.base0)
        | short(n, l.base1)
        | lent_short(rows, l.mod0)
        | lent_short(rows, l.mod1)
        | lent_short(rows, l.source0)
        | lent_short(rows, l.source1)
}
