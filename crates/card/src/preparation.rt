// The spans of a block. The parameters are C's, one by one.
ghost use Rattle.controls.specs.Controls.{control_buffers};
ghost use Rattle.spans.specs.Prepared.{spans, Prepared};
ghost use Rattle.spans.specs.Asked.{Faster};

use controls::ControlSlices;
use limits::{Answer, Valued};
use spans::{PrepareNumbers, StretchNumbers, prepare};

// `prepare` of mod.rs.
#[unsafe(no_mangle)]
pub extern "C" fn shaper_prepare(
    mode0: u32,
    mode1: u32,
    factor: u32,
    lanes: u32,
    active: u32,
    frames: u32,
    rate: u32,
    base0: &[f32],
    base1: &[f32],
    mod0: &[f32],
    mod1: &[f32],
    source0: &[f32],
    source1: &[f32],
    curve: &[f32],
    inner: &mut [f32],
    stretch: &mut [f32],
    add: &mut [f32],
) -> Answer
    ensures { Prepared mode0 mode1 factor lanes active frames rate
        (control_buffers base0.now base1.now mod0.now mod1.now source0.now source1.now) curve.now
        (spans inner.old stretch.old add.old) (spans inner.new stretch.new add.new) result }
{
    let block = PrepareNumbers {
        mode0,
        mode1,
        factor,
        lanes,
        active,
        frames,
        rate,
    };
    let controls = ControlSlices {
        base0,
        base1,
        mod0,
        mod1,
        source0,
        source1,
    };
    Answer::from(prepare(block, &controls, curve, inner, stretch, add))
}

// `PhaseRun::stretch`, for a host that picks a band-limited cycle by it.
#[unsafe(no_mangle)]
pub extern "C" fn shaper_stretch(
    factor: u32,
    lanes: u32,
    active: u32,
    lane: u32,
    frames: u32,
    first: u32,
    count: u32,
    asked_first: u32,
    asked: u32,
    step: u32,
    stretch: &[f32],
    add: &[f32],
) -> Valued
    ensures { Faster factor lanes active lane frames first count asked_first asked step stretch.now add.now result }
{
    let call = StretchNumbers {
        factor,
        lanes,
        active,
        lane,
        frames,
        first,
        count,
        asked_first,
        asked,
        step,
    };
    Valued::from(spans::stretch(call, stretch, add))
}
