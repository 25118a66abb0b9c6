// One lane at one rendered frame, its state in and out by value. `host` is the host frame of the block that it falls
// in, `sub` counts the rendered frames of a host frame. Lane and host frame stay beside the settings: a `LaneFrame` has
// lanes and frames of its own, of which each contract would ask that they are the settings'.
ghost use Rattle.std.specs.Prelude.{◌≡◌, ◌≤◌, length, take};
ghost use Rattle.std.specs.Float.{nan};
ghost use Rattle.grid.specs.Cells.{column};
ghost use Rattle.limits.specs.Lengths.{spans_of, curve_length};
ghost use Rattle.controls.specs.Controls.{control_lengths};
ghost use Rattle.controls.specs.Slices.{control_lists};
ghost use Rattle.shaper.specs.Lane.{lane_controls, reads_at, shaped_at};
ghost use Rattle.shaper.specs.Taken.{Driven, Fed};

use crate::settings::Settings;
use controls::{ControlSlices, LaneFrame};
use curve::Curve;
use grid::Lane;
use limits::{CURVE_LENGTH, SUB_BLOCK};
use phase::Tables;
use voice::{PhaseFrame, Reads, Shaped, Slots, WaveState, fm_scale, reads_of, shape_of};

// The read list, and the FM carry after it.
pub fn reads_at(
    s: Settings,
    rate: u32,
    lane: usize,
    host: usize,
    sub: u32,
    word: u32,
    step: u32,
    controls: &ControlSlices<'_>,
    curve: Curve<'_>,
    inner: &[f32],
    fm0: f32,
    fm1: f32,
    last: f32,
) -> Reads
    requires { Fed s rate (control_lengths (control_lists controls.now)) lane host (length inner.now) }
    ensures value { result ≡ reads_at s rate
        (lane_controls s (control_lists controls.now) lane)
        (take curve_length curve.entry.values.now) (column nan s.lanes lane (spans_of s.frames) inner.now)
        host sub word step fm0 fm1 last }
    ensures count_bound { result.reads.count ≤ 4 }
{
    let at = LaneFrame {
        lane: Lane {
            lanes: s.lanes as usize,
            index: lane,
        },
        frames: s.frames as usize,
        host,
    };
    let Settings {
        slot0,
        slot1,
        factor,
        numbers,
        ..
    } = s;
    let curve = Curve {
        values: &curve.values[..CURVE_LENGTH],
    };
    let scale = fm_scale(rate, factor);
    let control0 = at.control(
        slot0.mode,
        controls.base0,
        controls.mod0,
        controls.source0,
        last,
        factor,
        sub,
    );
    let control1 = at.control(
        slot1.mode,
        controls.base1,
        controls.mod1,
        controls.source1,
        last,
        factor,
        sub,
    );
    let span = at.lane.place(host / SUB_BLOCK);
    let tables = Tables { numbers, curve };
    let slots = Slots {
        slot0: voice::Driven::new(slot0, control0),
        slot1: voice::Driven::new(slot1, control1),
    };
    let frame = PhaseFrame {
        factor,
        scale,
        inner: inner[span],
        word,
        step,
        fm0,
        fm1,
    };
    reads_of(tables, slots, frame)
}

// The sample `x` shaped, and the filter pairs and `last` after it.
pub fn shape_at(
    s: Settings,
    lane: usize,
    host: usize,
    sub: u32,
    step: u32,
    x: f32,
    controls: &ControlSlices<'_>,
    state: WaveState,
) -> Shaped
    requires { Driven s (control_lengths (control_lists controls.now)) lane host }
    ensures { result ≡ shaped_at s (lane_controls s (control_lists controls.now) lane)
        host sub step x state.pairs0 state.pairs1 state.last }
{
    let at = LaneFrame {
        lane: Lane {
            lanes: s.lanes as usize,
            index: lane,
        },
        frames: s.frames as usize,
        host,
    };
    let Settings {
        slot0,
        slot1,
        factor,
        numbers,
        ..
    } = s;
    let control0 = at.control(
        slot0.mode,
        controls.base0,
        controls.mod0,
        controls.source0,
        state.last,
        factor,
        sub,
    );
    let control1 = at.control(
        slot1.mode,
        controls.base1,
        controls.mod1,
        controls.source1,
        state.last,
        factor,
        sub,
    );
    let slots = Slots {
        slot0: voice::Driven::new(slot0, control0),
        slot1: voice::Driven::new(slot1, control1),
    };
    shape_of(numbers, slots, step, x, state)
}
