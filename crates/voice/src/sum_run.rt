// The phase stage for a run that asks for nothing but the sum of its reads: no list is made.
ghost use Rattle.std.specs.Prelude.{◌≡◌};
ghost use Rattle.voice.specs.PhaseRun.{list_of, reads_of};
ghost use Rattle.voice.specs.SumRun.{slide_of, both_of, summed_of};

use crate::control::{Driven, Slots};
use crate::phase_run::{PhaseFrame, half_width, in_phase};
use lanes::{add_words, signed};
use phase::{Reading, Tables, mapped_sum};
use reads::Cycle;

// How a slot moves the reads: by `word`, if at all; and its FM carry after it.
#[derive(Clone, Copy)]
pub struct Slide {
    pub word: Option<u32>,
    pub carry: f32,
}

// The sum of a lane's reads, and both slots' FM carry.
#[derive(Clone, Copy)]
pub struct Summed {
    pub x: f32,
    pub fm0: f32,
    pub fm1: f32,
}

#[tactic(auto, unfolding(crate::specs::SumRun::slide_of))]
fn slide_of(driven: Driven, scale: f32, increment: f32, carry: f32) -> Slide
    ensures { result ≡ slide_of driven.slot.mode driven.control scale increment carry }
{
    match driven.offset(scale, increment, carry) {
        Some(offset) => Slide {
            word: Some(offset.word),
            carry: offset.carry,
        },
        None => Slide { word: None, carry },
    }
}

// How both slots move the reads.
#[tactic(auto, unfolding(crate::specs::SumRun::both_of))]
fn both(word1: Option<u32>, word0: Option<u32>) -> Option<u32>
    ensures { result ≡ both_of word1 word0 }
{
    match (word1, word0) {
        (None, None) => None,
        _ => Some(add_words(word1.unwrap_or(0), word0.unwrap_or(0))),
    }
}

// `list_of`, summed. The offsets add up, so that each read moves once.
fn sum_list(
    tables: Tables<'_>,
    cycle: Cycle<'_>,
    slots: Slots,
    frame: PhaseFrame,
    increment: f32,
) -> Summed
    ensures { result ≡ summed_of cycle.entry.samples.now
        (list_of tables.entry.numbers.sin tables.entry.numbers.atan tables.entry.curve.values.now
        slots.slot0.slot slots.slot1.slot frame.factor frame.scale slots.slot0.control slots.slot1.control
        frame.inner frame.word increment frame.fm0 frame.fm1) }
{
    let Slots { slot0, slot1 } = slots;
    let half = half_width(increment, frame.factor);
    let slide1 = slide_of(slot1, frame.scale, increment, frame.fm1);
    let slide0 = slide_of(slot0, frame.scale, increment, frame.fm0);
    let reading = Reading {
        cycle,
        offset: both(slide1.word, slide0.word),
    };
    Summed {
        x: mapped_sum::<false>(
            tables,
            reading,
            slot0.map(half * frame.inner),
            slot1.map(half),
            frame.word,
        ),
        fm0: slide0.carry,
        fm1: slide1.carry,
    }
}

// `reads_of`, summed.
pub fn sum_of(tables: Tables<'_>, cycle: Cycle<'_>, slots: Slots, frame: PhaseFrame) -> Summed
    ensures { result ≡ summed_of cycle.entry.samples.now
        (reads_of tables.entry.numbers.sin tables.entry.numbers.atan tables.entry.curve.values.now
        slots.slot0.slot slots.slot1.slot frame.factor frame.scale slots.slot0.control slots.slot1.control
        frame.inner frame.word frame.step frame.fm0 frame.fm1) }
{
    if in_phase(slots.slot0.slot.mode) | in_phase(slots.slot1.slot.mode) {
        let increment = signed(frame.step);
        return sum_list(tables, cycle, slots, frame, increment);
    }
    Summed {
        x: cycle.read(frame.word),
        fm0: frame.fm0,
        fm1: frame.fm1,
    }
}
