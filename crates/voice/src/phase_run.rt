// The phase stage: the read list of a lane, with the FM carry of its two slots.
ghost use Rattle.std.specs.Prelude.{◌≡◌, ◌≤◌};
ghost use Rattle.phase.specs.Setting.{setting_if};
ghost use Rattle.voice.specs.PhaseRun.{in_phase, is_own, fm_exponential, fm_scale, fm_cycles, carried_on, fm_offset, offset_of, offset_if, moved_of, map_slot, half_width, list_of, reads_of};

use crate::control::{Control, Driven, Slots};
use floats::{exp2, floor, nearest_u32};
use lanes::{max, signed, to_word};
use modes::{FmType, Modulated, Source, Stage};
use phase::{MapSetting, Tables};
use reads::{LaneReads, ReadList};
use wave::is_modulated;

// FM's scale: the deviation at amount 1 and source 1.
pub const FM_MAX_HZ: f32 = 83_750.0;

// Phase distortion's reach.
pub const PD_MAX_CYCLES: f32 = 0.5;

// The width of an edge, in host samples.
const TRANSITION: f32 = 2.0;

// The words that a slot adds to the read, and its FM carry after it.
#[derive(Clone, Copy)]
pub struct Offset {
    pub word: u32,
    pub carry: f32,
}

// A list moved on by a slot's offset, and the slot's carry.
#[derive(Clone, Copy)]
pub struct Moved {
    pub list: ReadList,
    pub carry: f32,
}

// What the phase stage is given at a rendered frame, beside the slots.
#[derive(Clone, Copy)]
pub struct PhaseFrame {
    // How many rendered frames a host frame has, and FM's reach as cycles a rendered frame.
    pub factor: u32,
    pub scale: f32,
    // Slot 1's steepest slope as prepared.
    pub inner: f32,
    // The phase word, and by how much it moves a rendered frame.
    pub word: u32,
    pub step: u32,
    // The FM carry of slots 0 and 1.
    pub fm0: f32,
    pub fm1: f32,
}

// The list that goes out, and both slots' carry.
#[derive(Clone, Copy)]
pub struct Reads {
    pub reads: LaneReads,
    pub fm0: f32,
    pub fm1: f32,
}

// Whether a slot with this mode acts on the read list.
#[tactic(auto, unfolding(crate::specs::PhaseRun::in_phase))]
pub fn in_phase(mode: u32) -> bool
    ensures { result ≡ in_phase mode }
{
    matches!(modes::stage(mode), Ok(Stage::Phase))
}

// Whether the mode reads the oscillator's own signal.
#[tactic(auto, unfolding(crate::specs::PhaseRun::is_own))]
pub fn is_own(mode: u32) -> bool
    ensures { result ≡ is_own mode }
{
    matches!(modes::source(mode), Ok(Some(Source::Own)))
}

// Exponential FM's scaling of the source's value.
pub fn fm_exponential(s: f32) -> f32
    ensures { result ≡ fm_exponential s }
{
    let up = exp2(s);
    let down = exp2(-s);
    (up - down) / (2.0 * 0.693_147_2)
}

// FM's reach as cycles a rendered frame. Crate spans divides the words of a cycle in the same way: with the number
// divided as a parameter nothing but one division would be shared.
#[tactic(auto, unfolding(crate::specs::PhaseRun::fm_scale))]
pub fn fm_scale(rate: u32, factor: u32) -> f32
    requires { (rate ≤ 192000) × (factor ≤ 8) }
    ensures { result ≡ fm_scale rate factor }
{
    FM_MAX_HZ / nearest_u32(rate * factor)
}

#[tactic(auto, unfolding(crate::specs::PhaseRun::fm_cycles))]
fn fm_cycles(a: f32, scale: f32, s: f32) -> f32
    ensures { result ≡ fm_cycles a scale s }
{
    a * a * a * a * scale * s
}

// Wrapped to ±½ cycle, where it means the same.
#[tactic(auto, unfolding(crate::specs::PhaseRun::carried_on), using(floats::specs::Steps::steps))]
fn carried_on(carry: f32, cycles: f32) -> Offset
    ensures { result ≡ carried_on carry cycles }
{
    let sum = carry + cycles;
    let carried = sum - floor(sum + 0.5);
    Offset {
        word: to_word(carried),
        carry: carried,
    }
}

// Linear FM stops at 0 Hz: the read never moves backwards.
#[tactic(auto, unfolding(crate::specs::PhaseRun::fm_offset), using(floats::specs::Steps::steps))]
fn fm_offset(kind: FmType, a: f32, s: f32, scale: f32, increment: f32, carry: f32) -> Offset
    ensures { result ≡ fm_offset kind a s scale increment carry }
{
    match kind {
        FmType::ThruZero => carried_on(carry, fm_cycles(a, scale, s)),
        FmType::Exponential => carried_on(carry, fm_cycles(a, scale, fm_exponential(s))),
        FmType::Linear => carried_on(carry, max(fm_cycles(a, scale, s), -increment)),
    }
}

// The offset of a slot that hears `s`: FM carries a running one, phase distortion's is direct.
#[tactic(auto, unfolding(crate::specs::PhaseRun::offset_of))]
pub fn offset_of(mode: u32, a: f32, s: f32, scale: f32, increment: f32, carry: f32) -> Offset
    ensures { result ≡ offset_of mode a s scale increment carry }
{
    match modes::modulated(mode) {
        Ok(Some(Modulated::Fm(kind))) => fm_offset(kind, a, s, scale, increment, carry),
        Ok(Some(Modulated::PhaseDistortion)) => Offset {
            word: to_word(a * PD_MAX_CYCLES * s),
            carry,
        },
        _ => Offset { word: 0, carry },
    }
}

impl Driven {
    // Its offset: none without a source.
    #[tactic(auto, unfolding(crate::specs::PhaseRun::offset_if), using(floats::specs::Steps::steps))]
    pub(crate) fn offset(self, scale: f32, increment: f32, carry: f32) -> Option<Offset>
        ensures { result ≡ offset_if self.slot.mode self.control scale increment carry }
    {
        let mode = self.slot.mode;
        let Control { amount, source } = self.control;
        match source {
            Some(heard) if is_modulated(mode) => {
                Some(offset_of(mode, amount, heard, scale, increment, carry))
            }
            _ => None,
        }
    }

    // Its map, with crossfades `half` cycles either side, if it is in the phase stage.
    #[tactic(auto, unfolding(phase::specs::Setting::setting_if), using(crate::proofs::Powers::phase_power, floats::specs::Steps::steps))]
    pub(crate) fn map(self, half: f32) -> Option<MapSetting>
        ensures { result ≡ setting_if (in_phase self.slot.mode) self.slot self.control.amount half }
    {
        if in_phase(self.slot.mode) {
            return Some(MapSetting {
                slot: self.slot,
                amount: self.control.amount,
                power: self.power,
                half,
            });
        }
        None
    }
}

// Here and in `map_slot` the count is asked for, as in `phase::apply`.
#[tactic(auto, unfolding(crate::specs::PhaseRun::moved_of))]
fn move_on(driven: Driven, scale: f32, increment: f32, list: ReadList, carry: f32) -> Moved
    requires { list.count ≤ 4 }
    ensures few { result.list.count ≤ 4 }
    ensures value { result ≡ moved_of driven.slot.mode driven.control scale increment list carry }
{
    match driven.offset(scale, increment, carry) {
        Some(offset) => Moved {
            list: list.shift(offset.word),
            carry: offset.carry,
        },
        None => Moved { list, carry },
    }
}

#[tactic(auto, unfolding(crate::specs::PhaseRun::map_slot, phase::specs::Setting::setting_if, phase::specs::Setting::setting_of), using(floats::specs::Steps::steps))]
fn map_slot(tables: Tables<'_>, driven: Driven, half: f32, list: ReadList) -> ReadList
    requires { list.count ≤ 4 }
    ensures few { result.count ≤ 4 }
    ensures value { result ≡ map_slot tables.entry.numbers.sin tables.entry.numbers.atan tables.entry.curve.values.now
        driven.slot driven.control half list }
{
    match driven.map(half) {
        Some(setting) => phase::apply(tables, setting, list),
        None => list,
    }
}

// Half the width of an edge. TRANSITION is in host samples; the increment is for a rendered one.
#[tactic(auto, unfolding(crate::specs::PhaseRun::half_width))]
pub fn half_width(increment: f32, factor: u32) -> f32
    ensures { result ≡ half_width increment factor }
{
    increment * (TRANSITION * 0.5 * nearest_u32(factor))
}

// Slot 1's map, then slot 0's with half width times `inner`, then the offsets in the same order.
#[tactic(auto, unfolding(crate::specs::PhaseRun::list_of, reads::specs::Reads::start_of, reads::specs::Reads::outgoing_of), using(floats::specs::Steps::steps))]
fn list_of(tables: Tables<'_>, slots: Slots, frame: PhaseFrame, increment: f32) -> Reads
    ensures value { result ≡ list_of tables.entry.numbers.sin tables.entry.numbers.atan tables.entry.curve.values.now
        slots.slot0.slot slots.slot1.slot frame.factor frame.scale slots.slot0.control slots.slot1.control
        frame.inner frame.word increment frame.fm0 frame.fm1 }
    ensures count_bound { result.reads.count ≤ 4 }
{
    let Slots { slot0, slot1 } = slots;
    let scale = frame.scale;
    let half = half_width(increment, frame.factor);
    let list1 = map_slot(tables, slot1, half, ReadList::start(frame.word));
    let list0 = map_slot(tables, slot0, half * frame.inner, list1);
    let moved1 = move_on(slot1, scale, increment, list0, frame.fm1);
    let moved0 = move_on(slot0, scale, increment, moved1.list, frame.fm0);
    Reads {
        reads: LaneReads::from(moved0.list),
        fm0: moved0.carry,
        fm1: moved1.carry,
    }
}

// The read list of a lane at one rendered frame.
#[tactic(auto, unfolding(crate::specs::PhaseRun::reads_of, reads::specs::Reads::one_read), using(floats::specs::Steps::steps))]
pub fn reads_of(tables: Tables<'_>, slots: Slots, frame: PhaseFrame) -> Reads
    ensures value { result ≡ reads_of tables.entry.numbers.sin tables.entry.numbers.atan tables.entry.curve.values.now
        slots.slot0.slot slots.slot1.slot frame.factor frame.scale slots.slot0.control slots.slot1.control
        frame.inner frame.word frame.step frame.fm0 frame.fm1 }
    ensures count_bound { result.reads.count ≤ 4 }
{
    if in_phase(slots.slot0.slot.mode) | in_phase(slots.slot1.slot.mode) {
        let increment = signed(frame.step);
        return list_of(tables, slots, frame, increment);
    }
    Reads {
        reads: LaneReads::one(frame.word),
        fm0: frame.fm0,
        fm1: frame.fm1,
    }
}
