// One rendered frame of one lane.
ghost use Rattle.std.specs.Prelude.{◌≡◌, ◌*◌, length, false};
ghost use Rattle.grid.specs.Cells.{column};
ghost use Rattle.voice.specs.WaveRun.{has_state};
ghost use Rattle.controls.specs.Controls.{lent_of};
ghost use Rattle.render.specs.Frames.{frame_of, frame_at, Levelled, Powered, Framed};

use crate::lent::AcceptedSlices;
use crate::state::{HostFrame, Stepped, Voice};
use controls::LaneFrame;
use curve::Curve;
use grid::Lane;
use phase::Tables;
use reads::Cycle;
use shaper::Settings;
use voice::{
    Control, Driven, PhaseFrame, Slots, has_state, in_phase, shape_level, shape_of, sum_of,
};

// `frame_of` where a slot maps or has a state: it takes the sine's and the arctangent's numbers. What the three here
// are given stays parameters: it is gathered at the one call, and a struct of it would be taken apart at once.
fn full_frame(
    s: Settings,
    scale: f32,
    curve: Curve<'_>,
    cycle: Cycle<'_>,
    slots: Slots,
    inner: f32,
    word: u32,
    step: u32,
    v: Voice,
) -> Stepped
    requires own0 { slots.slot0.slot ≡ s.slot0 }
    requires own1 { slots.slot1.slot ≡ s.slot1 }
    ensures { result ≡ frame_of s scale curve.entry.values.now cycle.entry.samples.now slots.slot0.control slots.slot1.control
        inner word step v }
{
    let Settings {
        factor,
        numbers,
        ..
    } = s;
    let tables = Tables { numbers, curve };
    let frame = PhaseFrame {
        factor,
        scale,
        inner,
        word,
        step,
        fm0: v.fm0,
        fm1: v.fm1,
    };
    let raw = sum_of(tables, cycle, slots, frame);
    let shaped = shape_of(numbers, slots, step, raw.x, v.wave_state());
    Stepped {
        sample: shaped.y,
        voice: Voice {
            pairs0: shaped.pairs0,
            pairs1: shaped.pairs1,
            fm0: raw.fm0,
            fm1: raw.fm1,
            last: shaped.last,
        },
    }
}

// `frame_of` where no slot maps or has a state: one read, through slots that set its level at the most.
fn level_frame(slots: Slots, cycle: Cycle<'_>, word: u32, v: Voice) -> Stepped
    requires stateless0 { has_state slots.slot0.slot.mode ≡ false }
    requires stateless1 { has_state slots.slot1.slot.mode ≡ false }
    ensures { Levelled result slots.slot0.slot slots.slot1.slot cycle.entry.samples.now slots.slot0.control slots.slot1.control word v }
{
    let Slots { slot0, slot1 } = slots;
    let shaped = shape_level(
        slot0.slot,
        slot0.control,
        slot1.slot,
        slot1.control,
        cycle.read(word),
        v.wave_state(),
    );
    Stepped {
        sample: shaped.y,
        voice: Voice {
            pairs0: shaped.pairs0,
            pairs1: shaped.pairs1,
            last: shaped.last,
            ..v
        },
    }
}

// One rendered frame, from what drives the slots, the prepared slope, the phase word and its step. The
// sine's and the arctangent's numbers are copied where they are taken, so that slots which need none are
// spared it.
fn frame_of(
    s: Settings,
    scale: f32,
    curve: Curve<'_>,
    cycle: Cycle<'_>,
    slots: Slots,
    inner: f32,
    word: u32,
    step: u32,
    v: Voice,
) -> Stepped
    requires own0 { slots.slot0.slot ≡ s.slot0 }
    requires own1 { slots.slot1.slot ≡ s.slot1 }
    ensures { result ≡ frame_of s scale curve.entry.values.now cycle.entry.samples.now slots.slot0.control slots.slot1.control
        inner word step v }
{
    let mode0 = slots.slot0.slot.mode;
    let mode1 = slots.slot1.slot.mode;
    let mapped = in_phase(mode0) | in_phase(mode1);
    let stated = has_state(mode0) | has_state(mode1);
    if mapped | stated {
        return full_frame(s, scale, curve, cycle, slots, inner, word, step, v);
    }
    level_frame(slots, cycle, word, v)
}

// Rendered frame `sub` of host frame `host`. `lane` and `host` are no `LaneFrame`, as in shaper's calls.
pub fn frame_at(
    s: Settings,
    scale: f32,
    lane: usize,
    host: usize,
    sub: u32,
    h: HostFrame,
    v: Voice,
    lent: AcceptedSlices<'_>,
) -> Stepped
    requires powered { Powered s h }
    requires framed { Framed s lane host sub
        (length lent.rows.controls.source0.now) (length lent.rows.controls.source1.now)
        (length lent.rows.words.now) (length lent.rows.steps.now) }
    ensures { result ≡ frame_at s scale h
        (lent_of s.lanes lane s.frames lent.entry.rows.controls.source0.now) (lent_of s.lanes lane s.frames lent.entry.rows.controls.source1.now)
        lent.entry.curve.values.now lent.entry.cycle.samples.now
        (column 0 s.lanes lane (s.frames * s.factor) lent.entry.rows.words.now) (column 0 s.lanes lane (s.frames * s.factor) lent.entry.rows.steps.now)
        host sub v }
{
    let factor = s.factor;
    let AcceptedSlices { rows, curve, cycle } = lent;
    let at = LaneFrame {
        lane: Lane {
            lanes: s.lanes as usize,
            index: lane,
        },
        frames: s.frames as usize,
        host,
    };
    let HostFrame {
        drive0,
        drive1,
        inner,
    } = h;
    let slots = Slots {
        slot0: Driven {
            slot: s.slot0,
            control: Control {
                amount: drive0.amount,
                source: at.heard(s.slot0.mode, rows.controls.source0, v.last, factor, sub),
            },
            power: drive0.power,
        },
        slot1: Driven {
            slot: s.slot1,
            control: Control {
                amount: drive1.amount,
                source: at.heard(s.slot1.mode, rows.controls.source1, v.last, factor, sub),
            },
            power: drive1.power,
        },
    };
    let rendered = at.lane.place(host * factor as usize + sub as usize);
    frame_of(
        s,
        scale,
        curve,
        cycle,
        slots,
        inner,
        rows.words[rendered],
        rows.steps[rendered],
        v,
    )
}
