// `prepare`: the spans of every active lane, from the base as given.
ghost use Rattle.std.specs.Prelude.{◌≡◌, ◌+◌, ◌<◌, ◌≤◌, length};
ghost use Rattle.grid.specs.Lanes.{Each};
ghost use Rattle.limits.specs.Refusals.{answer_of};
ghost use Rattle.controls.specs.Controls.{control_lengths, controls_of};
ghost use Rattle.controls.specs.Slices.{control_lists};
ghost use Rattle.spans.specs.Prepared.{spans, views, filled, Prepared};
ghost use Rattle.spans.specs.Promises.{Takes};

use crate::refusal::{PrepareLengths, PrepareNumbers, check_prepare};
use crate::slopes::Block;
use controls::ControlSlices;
use curve::Curve;
use grid::Lane;
use limits::{CURVE_LENGTH, Refusal, spans_of};

// One lane's sub-blocks. The three slices that are written stay parameters, here and below, for the reason that share's
// `run_lane` has.
fn prepare_lane(
    block: Block,
    rows: usize,
    lane: Lane,
    controls: &ControlSlices<'_>,
    inner: &mut [f32],
    stretch: &mut [f32],
    add: &mut [f32],
)
    requires { Takes block.frames rows lane.lanes (control_lengths (control_lists controls.now)) (length inner.old) (length stretch.old) (length add.old) }
    ensures { Each lane.lanes lane.index (lane.index + 1)
        (λ l. filled block.mode0 block.mode1 block.factor block.frames block.rate block.curve (controls_of lane.lanes l block.frames (control_lists controls.now)) rows)
        (views lane.lanes (spans inner.old stretch.old add.old)) (views lane.lanes (spans inner.new stretch.new add.new)) }
{
    // By the sub-block's number, which `span_at` asks for: three cells, `lanes` apart from those of the next.
    for s in 0..rows {
        let span = block.span_at(lane, s, controls);
        let at = lane.place(s);
        inner[at] = span.inner;
        stretch[at] = span.stretch;
        add[at] = span.add;
    }
}

// The first `active` of `lanes` lanes.
fn prepare_lanes(
    block: Block,
    rows: usize,
    lanes: usize,
    active: usize,
    controls: &ControlSlices<'_>,
    inner: &mut [f32],
    stretch: &mut [f32],
    add: &mut [f32],
)
    requires takes { Takes block.frames rows lanes (control_lengths (control_lists controls.now)) (length inner.old) (length stretch.old) (length add.old) }
    requires active_le_lanes { active ≤ lanes }
    ensures { Each lanes 0 active
        (λ l. filled block.mode0 block.mode1 block.factor block.frames block.rate block.curve (controls_of lanes l block.frames (control_lists controls.now)) rows)
        (views lanes (spans inner.old stretch.old add.old)) (views lanes (spans inner.new stretch.new add.new)) }
{
    // A lane is its number: its cells are no part of a slice to go through.
    for index in 0..active {
        let lane = Lane { lanes, index };
        prepare_lane(block, rows, lane, controls, inner, stretch, add);
    }
}

// Called once for a block. Each active lane's three spans are written, and nothing else. An accepted call's
// frames.
pub fn prepare(
    block: PrepareNumbers,
    controls: &ControlSlices<'_>,
    curve: &[f32],
    inner: &mut [f32],
    stretch: &mut [f32],
    add: &mut [f32],
) -> Result<u32, Refusal>
    ensures { Prepared block.mode0 block.mode1 block.factor block.lanes block.active block.frames block.rate (control_lists controls.now) curve.now
        (spans inner.old stretch.old add.old) (spans inner.new stretch.new add.new) (answer_of result) }
{
    let lengths = PrepareLengths {
        controls: controls.lengths(),
        curve: curve.len(),
        inner: inner.len(),
        stretch: stretch.len(),
        add: add.len(),
    };
    check_prepare(block, lengths)?;
    let values = &curve[..CURVE_LENGTH];
    let curve = Curve { values };
    let frames = block.frames as usize;
    let prepared = Block {
        mode0: block.mode0,
        mode1: block.mode1,
        factor: block.factor,
        rate: block.rate,
        frames,
        curve: curve.steepest(),
    };
    prepare_lanes(
        prepared,
        spans_of(frames),
        block.lanes as usize,
        block.active as usize,
        controls,
        inner,
        stretch,
        add,
    );
    Ok(block.frames)
}
