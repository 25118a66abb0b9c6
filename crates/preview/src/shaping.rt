// A picture through a slot of the wave stage.
ghost use Rattle.std.specs.Prelude.{◌≡◌};
ghost use Rattle.preview.specs.Shaping.{has_source, rectified_of, distorted_of, settled_of, shaped_of};

use crate::filtering::Filter;
use lanes::Numbers;
use modes::numbers::RECTIFY;
use phase::Slot;
use wave::{
    blend_rectified, curve_all, cutoff_harmonic, damping, drive, in_wave, is_filter, tangent,
};

// As the Rust asks it. That it is `is_modulated` of wave, by the other fact, is the table's.
#[tactic(auto, unfolding(crate::specs::Shaping::has_source))]
fn has_source(mode: u32) -> bool
    ensures { result ≡ has_source mode }
{
    matches!(modes::source(mode), Ok(Some(_)))
}

fn rectify_picture(a: f32, picture: &mut [f32])
    ensures { picture.new ≡ rectified_of a picture.old }
{
    for x in picture.iter_mut() {
        *x = blend_rectified(a, *x);
    }
}

// Plain `distort`, with the drive worked out once.
fn distort_picture(numbers: Numbers, mode: u32, a: f32, picture: &mut [f32])
    ensures { picture.new ≡ distorted_of numbers.sin mode a picture.old }
{
    match mode {
        RECTIFY => rectify_picture(a, picture),
        _ => curve_all(numbers, mode, drive(mode, a), picture),
    }
}

// Fifteen cycles to settle, then the one drawn.
fn filter_picture(numbers: Numbers, slot: Slot, a: f32, increment: f32, picture: &mut [f32])
    ensures { picture.new ≡ settled_of numbers.sin slot a increment picture.old }
{
    let harmonic = cutoff_harmonic(slot.mode, a);
    let filter = Filter {
        mode: slot.mode,
        g: tangent(numbers, harmonic, increment),
        k: damping(slot.character),
    };
    let state = filter.settle(picture);
    filter.draw_pass(state, picture);
}

// A slot's part. One that reads a source does nothing, as in a run where its source is absent.
#[tactic(auto, unfolding(crate::specs::Shaping::shaped_of), using(floats::specs::Steps::by_taken, floats::specs::Steps::by_left))]
pub fn shape_slot(numbers: Numbers, slot: Slot, a: f32, increment: f32, picture: &mut [f32])
    ensures { picture.new ≡ shaped_of numbers.sin slot a increment picture.old }
{
    if !in_wave(slot.mode) || has_source(slot.mode) {
        return;
    }
    if is_filter(slot.mode) {
        filter_picture(numbers, slot, a, increment, picture);
    } else {
        distort_picture(numbers, slot.mode, a, picture);
    }
}
