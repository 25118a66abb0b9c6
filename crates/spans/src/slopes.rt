// One sub-block of a lane.
ghost use Rattle.std.specs.Prelude.{◌≡◌, ◌+◌, ◌*◌, ◌<◌, ◌≤◌, length};
ghost use Rattle.controls.specs.Controls.{lent_of, control_lengths, controls_of};
ghost use Rattle.controls.specs.Slices.{control_lists};
ghost use Rattle.limits.specs.Lengths.{sub_block, Holds, ControlsHeld};
ghost use Rattle.spans.specs.Slopes.{widened, bounds_of, swung, steepest_at, reach_of, words_per_hertz, fm_slope, pd_slope, added_of, add_of, slot_span, distorts, start_span, span_at};

use crate::rows::LaneRows;
use controls::ControlSlices;
use floats::{abs, nearest_u32};
use grid::Lane;
use lanes::{max, min};
use limits::SUB_BLOCK;
use modes::{FmType, Modulated, is_distortion};
use slope::stretch_of;
use voice::{FM_MAX_HZ, PD_MAX_CYCLES, fm_exponential, in_phase};

// The words of one cycle.
const TWO_32: f32 = 4_294_967_296.0;

// The least and the largest amount, in percent.
#[derive(Clone, Copy)]
pub struct Bounds {
    pub low: f32,
    pub high: f32,
}

impl Bounds {
    #[tactic(auto, unfolding(crate::specs::Slopes::widened))]
    pub(crate) fn widened(self, x: f32) -> Bounds
        ensures { result ≡ widened self x }
    {
        Bounds {
            low: min(self.low, x),
            high: max(self.high, x),
        }
    }

    // The slope of a map that is steeper at one of the two.
    #[tactic(auto, unfolding(crate::specs::Slopes::steepest_at), using(floats::specs::Steps::step))]
    fn steepest(self, mode: u32, curve: f32) -> f32
        ensures { result ≡ steepest_at mode curve self }
    {
        let low = stretch_of(mode, self.low / 100.0, curve);
        let high = stretch_of(mode, self.high / 100.0, curve);
        max(low, high)
    }

    // How far from 0 the amount goes, 0 to 1.
    #[tactic(auto, unfolding(crate::specs::Slopes::reach_of), using(floats::specs::Steps::step))]
    fn reach(self) -> f32
        ensures { result ≡ reach_of self }
    {
        min(max(abs(self.low), abs(self.high)), 100.0) / 100.0
    }
}

// A source's peak, its steepest step, and its last number.
#[derive(Clone, Copy)]
pub struct Swing {
    pub peak: f32,
    pub step: f32,
    pub last: f32,
}

impl Swing {
    #[tactic(auto, unfolding(crate::specs::Slopes::swung))]
    pub(crate) fn on(self, x: f32) -> Swing
        ensures { result ≡ swung self x }
    {
        Swing {
            peak: max(self.peak, abs(x)),
            step: max(self.step, abs(x - self.last)),
            last: x,
        }
    }
}

// The steepest slope of slot 1, of both slots, and what the inter-oscillator modes add, in words a
// frame.
#[derive(Clone, Copy)]
pub struct Span {
    pub inner: f32,
    pub stretch: f32,
    pub add: f32,
}

#[tactic(auto, unfolding(crate::specs::Slopes::fm_slope))]
fn fm_slope(a: f32, x: f32, per_hertz: f32) -> f32
    ensures { result ≡ fm_slope a x per_hertz }
{
    a * a * a * a * FM_MAX_HZ * x * per_hertz
}

#[tactic(auto, unfolding(crate::specs::Slopes::pd_slope))]
fn pd_slope(a: f32, step: f32, factor: u32) -> f32
    ensures { result ≡ pd_slope a step factor }
{
    a * PD_MAX_CYCLES * (step / nearest_u32(factor)) * TWO_32
}

#[tactic(auto, unfolding(crate::specs::Slopes::added_of))]
fn added_of(mode: u32, a: f32, w: Swing, factor: u32, per_hertz: f32, add: f32) -> f32
    ensures { result ≡ added_of mode a w factor per_hertz add }
{
    match modes::modulated(mode) {
        Ok(Some(Modulated::Fm(FmType::Exponential))) => {
            add + fm_slope(a, fm_exponential(w.peak), per_hertz)
        }
        Ok(Some(Modulated::Fm(_))) => add + fm_slope(a, w.peak, per_hertz),
        Ok(Some(Modulated::PhaseDistortion)) => add + pd_slope(a, w.step, factor),
        _ => add,
    }
}

// A slot of a lane over a sub-block: its base, and its modulation and source for all lanes.
#[derive(Clone, Copy)]
struct SlotRows<'a> {
    mode: u32,
    base: f32,
    modulation: &'a [f32],
    source: &'a [f32],
    at: LaneRows,
    ghost modulated: { Holds (at.all * at.lane.lanes) (length modulation.now) },
    ghost sourced: { Holds (at.all * at.lane.lanes) (length source.now) },
}

impl SlotRows<'_> {
    #[tactic(auto, unfolding(crate::specs::Slopes::bounds_of), using(controls::proofs::LentLaws::lent_none, controls::proofs::LentLaws::lent_some))]
    fn bounds(self) -> Bounds
        ensures { result ≡ bounds_of self.entry.base
            (lent_of self.entry.at.lane.lanes self.entry.at.lane.index self.entry.at.all self.entry.modulation.now)
            self.entry.at.from self.entry.at.count }
    {
        if self.modulation.is_empty() {
            return Bounds {
                low: self.base,
                high: self.base,
            };
        }
        self.at.bounds(self.base, self.modulation)
    }

    // `add` with the slope that its source adds.
    #[tactic(auto, unfolding(crate::specs::Slopes::add_of), using(floats::specs::Steps::step, controls::proofs::LentLaws::lent_none, controls::proofs::LentLaws::lent_some))]
    fn add_to(self, b: Bounds, factor: u32, per_hertz: f32, add: f32) -> f32
        ensures { result ≡ add_of self.entry.mode b
            (lent_of self.entry.at.lane.lanes self.entry.at.lane.index self.entry.at.all self.entry.source.now)
            self.entry.at.from self.entry.at.count factor per_hertz add }
    {
        if self.source.is_empty() {
            return add;
        }
        let swing = self.at.swing(self.source);
        added_of(self.mode, b.reach(), swing, factor, per_hertz, add)
    }

    // `span` with the slot's share.
    #[tactic(auto, unfolding(crate::specs::Slopes::slot_span), using(floats::specs::Steps::step, floats::specs::Steps::taken, floats::specs::Steps::left))]
    fn span(self, second: bool, factor: u32, per_hertz: f32, curve: f32, span: Span) -> Span
        ensures { result ≡ slot_span second self.entry.mode factor per_hertz curve self.entry.base
            (lent_of self.entry.at.lane.lanes self.entry.at.lane.index self.entry.at.all self.entry.modulation.now)
            (lent_of self.entry.at.lane.lanes self.entry.at.lane.index self.entry.at.all self.entry.source.now)
            self.entry.at.from self.entry.at.count span }
    {
        if !in_phase(self.mode) {
            return span;
        }
        let bounds = self.bounds();
        let steepest = bounds.steepest(self.mode, curve);
        Span {
            inner: if second { steepest } else { span.inner },
            stretch: span.stretch * steepest,
            add: self.add_to(bounds, factor, per_hertz, span.add),
        }
    }
}

// What the spans of all lanes go by. `curve` is the lent curve's steepest slope.
#[derive(Clone, Copy)]
pub struct Block {
    pub mode0: u32,
    pub mode1: u32,
    pub factor: u32,
    pub rate: u32,
    pub frames: usize,
    pub curve: f32,
    ghost rendered: { factor ≤ 8 },
    ghost rates: { rate ≤ 192000 },
    ghost few: { frames ≤ 4096 },
}

impl Block {
    // FM's hertz as words a rendered frame.
    #[tactic(auto, unfolding(crate::specs::Slopes::words_per_hertz), using(crate::proofs::ColumnLaws::small_rate))]
    fn words_per_hertz(self) -> f32
        ensures { result ≡ words_per_hertz self.rate self.factor }
    {
        TWO_32 / nearest_u32(self.rate * self.factor)
    }

    #[tactic(auto, unfolding(crate::specs::Slopes::distorts))]
    fn distorts(self) -> bool
        ensures { result ≡ distorts self.mode0 self.mode1 }
    {
        is_distortion(self.mode0) | is_distortion(self.mode1)
    }

    // A distortion makes harmonics of whatever it's given, so it's given a read band-limited to the host
    // rate's Nyquist.
    #[tactic(auto, unfolding(crate::specs::Slopes::start_span), using(floats::specs::Steps::taken, floats::specs::Steps::left))]
    fn start(self) -> Span
        ensures { result ≡ start_span self.mode0 self.mode1 self.factor }
    {
        Span {
            inner: 1.0,
            stretch: if self.distorts() {
                nearest_u32(self.factor)
            } else {
                1.0
            },
            add: 0.0,
        }
    }

    // Both slots of a lane's sub-block `s`.
    #[tactic(auto, unfolding(crate::specs::Slopes::span_at), using(floats::specs::Steps::step))]
    pub fn span_at(self, lane: Lane, s: usize, controls: &ControlSlices<'_>) -> Span
        requires inside { s * sub_block < self.frames }
        requires held { ControlsHeld self.frames lane.lanes (control_lengths (control_lists controls.now)) }
        ensures { result ≡ span_at self.mode0 self.mode1 self.factor self.frames self.rate self.curve
            (controls_of lane.lanes lane.index self.frames (control_lists controls.now)) s }
    {
        let from = s * SUB_BLOCK;
        let at = LaneRows {
            lane,
            all: self.frames,
            from,
            count: SUB_BLOCK.min(self.frames - from),
        };
        let slot1 = SlotRows {
            mode: self.mode1,
            base: controls.base1[lane.index],
            modulation: controls.mod1,
            source: controls.source1,
            at,
        };
        let slot0 = SlotRows {
            mode: self.mode0,
            base: controls.base0[lane.index],
            modulation: controls.mod0,
            source: controls.source0,
            at,
        };
        let per_hertz = self.words_per_hertz();
        let one = slot1.span(true, self.factor, per_hertz, self.curve, self.start());
        slot0.span(false, self.factor, per_hertz, self.curve, one)
    }
}
