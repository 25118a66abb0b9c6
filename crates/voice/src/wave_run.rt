// The wave stage: a lane's sample shaped, with the filter pairs of its two slots and `last`.
ghost use Rattle.std.specs.Prelude.{◌≡◌, false};
ghost use Rattle.floats.specs.Steps.{when◌then◌else◌};
ghost use Rattle.voice.specs.WaveRun.{tracks, slot_of, has_state, Passes, ShapedBy, shaped_of};

use crate::control::{Control, Driven, Slots};
use crate::phase_run::is_own;
use lanes::{Numbers, signed};
use phase::Slot;
use wave::{Filtered, Svf, in_wave, is_level, level, level_setting};

// The state of the wave stage: the slots' filter pairs, and the raw sample before.
#[derive(Clone, Copy)]
pub struct WaveState {
    pub pairs0: Svf,
    pub pairs1: Svf,
    pub last: f32,
}

// The sample that goes out, and the state after it.
#[derive(Clone, Copy)]
pub struct Shaped {
    pub y: f32,
    pub pairs0: Svf,
    pub pairs1: Svf,
    pub last: f32,
}

// Whether the raw sample is kept: only if a slot reads it and a slot is in the wave stage.
#[tactic(auto, unfolding(crate::specs::WaveRun::tracks))]
pub fn tracks(mode0: u32, mode1: u32) -> bool
    ensures { result ≡ tracks mode0 mode1 }
{
    (in_wave(mode0) | in_wave(mode1)) & (is_own(mode0) | is_own(mode1))
}

// `last` after the raw sample `x`.
#[tactic(auto, using(floats::specs::Steps::steps))]
fn kept(mode0: u32, mode1: u32, x: f32, last: f32) -> f32
    ensures { result ≡ (when tracks mode0 mode1 then x else last) }
{
    if tracks(mode0, mode1) { x } else { last }
}

// A slot that is not in the wave stage has no setting, and leaves sample and state. The parameters are those of wave's
// `shape`, which says why they are.
#[tactic(auto, unfolding(crate::specs::WaveRun::slot_of), using(crate::proofs::Powers::wave_power_lem, floats::specs::Steps::steps))]
fn slot_of(numbers: Numbers, driven: Driven, increment: f32, x: f32, state: Svf) -> Filtered
    ensures { result ≡ slot_of numbers.sin driven.slot driven.control increment x state }
{
    let Slot { mode, character } = driven.slot;
    let Control { amount, source } = driven.control;
    let setting = wave::setting_with(mode, amount, driven.power, character, source);
    wave::shape(numbers, mode, setting, increment, x, state)
}

// `shape_of` where a slot has a state.
#[tactic(auto, unfolding(crate::specs::WaveRun::shaped_of), using(floats::specs::Steps::steps))]
fn shape_stated(numbers: Numbers, slots: Slots, step: u32, x: f32, state: WaveState) -> Shaped
    ensures { result ≡ shaped_of numbers.sin slots.slot0.slot slots.slot1.slot slots.slot0.control slots.slot1.control
        step x state.pairs0 state.pairs1 state.last }
{
    let Slots { slot0, slot1 } = slots;
    let increment = signed(step);
    let kept = kept(slot0.slot.mode, slot1.slot.mode, x, state.last);
    let first = slot_of(numbers, slot0, increment, x, state.pairs0);
    let second = slot_of(numbers, slot1, increment, first.y, state.pairs1);
    Shaped {
        y: second.y,
        pairs0: first.state,
        pairs1: second.state,
        last: kept,
    }
}

// Whether a slot shapes with a state: a filter or a distortion.
#[tactic(auto, unfolding(crate::specs::WaveRun::has_state))]
pub fn has_state(mode: u32) -> bool
    ensures { result ≡ has_state mode }
{
    in_wave(mode) & !is_level(mode)
}

// What a slot without a state makes of the sample.
fn level_of(slot: Slot, control: Control, x: f32) -> f32
    requires { has_state slot.mode ≡ false }
    ensures { Passes result slot control x }
{
    let mode = slot.mode;
    if !in_wave(mode) {
        return x;
    }
    let Control { amount, source } = control;
    level(mode, level_setting(amount, source), x)
}

// `shape_of` where no slot has a state: no number of the sine is asked for, no power, and the step is not looked at.
pub fn shape_level(
    slot0: Slot,
    control0: Control,
    slot1: Slot,
    control1: Control,
    x: f32,
    state: WaveState,
) -> Shaped
    requires stateless0 { has_state slot0.mode ≡ false }
    requires stateless1 { has_state slot1.mode ≡ false }
    ensures { ShapedBy result slot0 slot1 control0 control1 x state.pairs0 state.pairs1 state.last }
{
    Shaped {
        y: level_of(slot1, control1, level_of(slot0, control0, x)),
        pairs0: state.pairs0,
        pairs1: state.pairs1,
        last: kept(slot0.mode, slot1.mode, x, state.last),
    }
}

// The sample `x` of a lane at one rendered frame, shaped by slot 0 and then slot 1.
pub fn shape_of(numbers: Numbers, slots: Slots, step: u32, x: f32, state: WaveState) -> Shaped
    ensures { result ≡ shaped_of numbers.sin slots.slot0.slot slots.slot1.slot slots.slot0.control slots.slot1.control
        step x state.pairs0 state.pairs1 state.last }
{
    if has_state(slots.slot0.slot.mode) | has_state(slots.slot1.slot.mode) {
        return shape_stated(numbers, slots, step, x, state);
    }
    let Slots { slot0, slot1 } = slots;
    shape_level(
        slot0.slot,
        slot0.control,
        slot1.slot,
        slot1.control,
        x,
        state,
    )
}
