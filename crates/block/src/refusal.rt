// When a block run is turned down: by its numbers and by lengths, and by no float.
ghost use Rattle.std.specs.Prelude.{◌≡◌, ◌≤◌};
ghost use Rattle.limits.specs.Lines.{first_of, number_lines, bad_modes, bad_factor, bad_lanes, bad_range, bad_rate, bad_counts};
ghost use Rattle.limits.specs.Refusals.{number_of};
ghost use Rattle.render.specs.Slices.{lent_lists};
ghost use Rattle.share.specs.Share.{buffers};
ghost use Rattle.block.specs.Refusal.{buffers_short, reads_short, writes_short, block_refusal};
ghost use Rattle.block.specs.Call.{call_numbers, read_lengths, write_lengths};

use limits::{
    COEFS_LENGTH, CURVE_LENGTH, CYCLE_LENGTH, ControlLengths, NUMBERS_LENGTH, Refusal,
    carry_length, check_lines, controls_short, counts_bad, factor_bad, host_length, lanes_bad,
    last_length, modes_bad, pairs_length, range_bad, rate_bad, rendered_length, short, span_length,
    state_length,
};
use render::{BlockSettings, LentSlices};
use shaper::Range;

// What lines 1 to 6 look at: the run's numbers without characters, coefficients and sine and arctangent
// numbers.
#[derive(Clone, Copy)]
pub struct CallNumbers {
    pub mode0: u32,
    pub mode1: u32,
    pub factor: u32,
    pub lanes: u32,
    pub active: u32,
    pub frames: u32,
    pub first: u32,
    pub count: u32,
    pub rate: u32,
    pub count0: u32,
    pub count1: u32,
    pub count2: u32,
}

// The lengths of what it is lent to read. `coefs` and `numbers` are 36 and 13 where those come by value.
#[derive(Clone, Copy)]
pub struct ReadLengths {
    pub controls: ControlLengths,
    pub curve: usize,
    pub cycle: usize,
    pub words: usize,
    pub steps: usize,
    pub inner: usize,
    pub coefs: usize,
    pub numbers: usize,
}

// The lengths of what it writes.
#[derive(Clone, Copy)]
pub struct WriteLengths {
    pub output: usize,
    pub work: usize,
    pub pairs: usize,
    pub fm: usize,
    pub last: usize,
    pub dec: usize,
}

// Where they come in settings and a range.
pub fn call_numbers(b: BlockSettings, r: Range, active: u32) -> CallNumbers
    ensures { result ≡ call_numbers b r active }
{
    let s = b.shaper;
    let [last, middle, first] = b.designs.stages;
    CallNumbers {
        mode0: s.slot0.mode,
        mode1: s.slot1.mode,
        factor: s.factor,
        lanes: s.lanes,
        active,
        frames: s.frames,
        first: r.first,
        count: r.count,
        rate: b.rate,
        count0: last.count,
        count1: middle.count,
        count2: first.count,
    }
}

// Of the slices themselves, and of coefficients and numbers by how many there are.
pub fn read_lengths(lent: &LentSlices<'_>, coefs: usize, numbers: usize) -> ReadLengths
    ensures { result ≡ read_lengths coefs numbers (lent_lists lent.now) }
{
    let rows = lent.rows;
    ReadLengths {
        controls: rows.controls.lengths(),
        curve: lent.curve.len(),
        cycle: lent.cycle.len(),
        words: rows.words.len(),
        steps: rows.steps.len(),
        inner: rows.inner.len(),
        coefs,
        numbers,
    }
}

// Of the slices themselves.
pub fn write_lengths(
    output: &[f32],
    work: &[f32],
    pairs: &[f32],
    fm: &[f32],
    last: &[f32],
    dec: &[f32],
) -> WriteLengths
    ensures { result ≡ write_lengths (buffers output.now work.now pairs.now fm.now last.now dec.now) }
{
    WriteLengths {
        output: output.len(),
        work: work.len(),
        pairs: pairs.len(),
        fm: fm.len(),
        last: last.len(),
        dec: dec.len(),
    }
}

// Lines 1 to 6.
#[tactic(auto, unfolding(limits::specs::Lines::first_of, limits::specs::Refusals::line_of))]
fn check_numbers(call: CallNumbers) -> Result<(), Refusal>
    ensures { number_of result ≡ first_of (number_lines (bad_modes call.mode0 call.mode1) (bad_factor call.factor) (bad_lanes call.lanes call.active) (bad_range call.frames call.first call.count) (bad_rate call.rate) (bad_counts call.count0 call.count1 call.count2)) }
{
    check_lines(&[
        (modes_bad(call.mode0, call.mode1), Refusal::Mode),
        (factor_bad(call.factor), Refusal::Factor),
        (lanes_bad(call.lanes, call.active), Refusal::Lanes),
        (
            range_bad(call.frames, call.first, call.count),
            Refusal::Frames,
        ),
        (rate_bad(call.rate), Refusal::Rate),
        (
            counts_bad(call.count0, call.count1, call.count2),
            Refusal::Design,
        ),
    ])
}

// A call that passes lines 1 to 6, so that the lengths that it asks for are no large numbers.
#[derive(Clone, Copy)]
struct Numbered {
    call: CallNumbers,
    ghost block: { call.frames ≤ 4096 },
    ghost rendered: { call.factor ≤ 8 },
    ghost few: { call.lanes ≤ 64 },
    ghost range: { call.count ≤ 4096 },
}

impl Numbered {
    // Line 7 but for coefficients and sine and arctangent numbers.
    fn buffers_short(self, l: ReadLengths) -> bool
        ensures { result ≡ buffers_short self.call l }
    {
        let call = self.call;
        let rows = rendered_length(call.frames, call.factor, call.lanes);
        controls_short(call.frames, call.lanes, l.controls)
            | short(CURVE_LENGTH, l.curve)
            | short(CYCLE_LENGTH, l.cycle)
            | short(rows, l.words)
            | short(rows, l.steps)
            | short(span_length(call.frames, call.lanes), l.inner)
    }

    // Line 7.
    fn reads_short(self, l: ReadLengths) -> bool
        ensures { result ≡ reads_short self.call l }
    {
        self.buffers_short(l) | short(COEFS_LENGTH, l.coefs) | short(NUMBERS_LENGTH, l.numbers)
    }

    // Line 8.
    fn writes_short(self, l: WriteLengths) -> bool
        ensures { result ≡ writes_short self.call l }
    {
        let call = self.call;
        short(host_length(call.frames, call.lanes), l.output)
            | short(rendered_length(call.count, call.factor, call.lanes), l.work)
            | short(pairs_length(call.lanes), l.pairs)
            | short(carry_length(call.lanes), l.fm)
            | short(last_length(call.lanes), l.last)
            | short(state_length(call.lanes), l.dec)
    }
}

// A block run, by the first line that holds.
#[tactic(auto, using(crate::proofs::RefusalLaws::small_numbers, crate::proofs::RefusalLaws::table_is, crate::proofs::RefusalLaws::last_lines), unfolding(limits::specs::Refusals::number_of))]
pub fn check(call: CallNumbers, reads: ReadLengths, writes: WriteLengths) -> Result<(), Refusal>
    ensures { number_of result ≡ block_refusal call reads writes }
{
    check_numbers(call)?;
    let numbered = Numbered { call };
    check_lines(&[
        (numbered.reads_short(reads), Refusal::ShortRead),
        (numbered.writes_short(writes), Refusal::ShortWrite),
    ])
}
