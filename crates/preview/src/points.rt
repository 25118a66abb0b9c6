// A picture's points: where they read, and how the slots' maps are set for all of them.
ghost use Rattle.std.specs.Prelude.{◌≡◌, ◌≤◌, ◌<◌};
ghost use Rattle.phase.specs.Setting.{setting_if};
ghost use Rattle.voice.specs.PhaseRun.{in_phase};
ghost use Rattle.preview.specs.Points.{amount_of, word_at, increment_of, Steepest, inner_of};

use curve::Curve;
use floats::nearest_u32;
use lanes::clamp;
use modes::numbers::{REMAP_DRAWN, REMAP_MIRRORED, REMAP_QUAD};
use phase::{MapSetting, Slot};
use slope::stretch_of;
use voice::in_phase;

// A slot as a panel has it, with its amount in percent.
#[derive(Clone, Copy)]
pub struct PanelSlot {
    pub slot: Slot,
    pub percent: f32,
}

// A slot's amount, 0 to 1, of its percents.
#[tactic(auto, unfolding(crate::specs::Points::amount_of))]
pub fn amount_of(percent: f32) -> f32
    ensures { result ≡ amount_of percent }
{
    clamp(percent / 100.0, 0.0, 1.0)
}

// The phase word of point `i`.
#[tactic(auto, unfolding(crate::specs::Points::word_at), using(crate::proofs::PointLaws::word_below))]
pub fn word_at(points: usize, i: usize) -> u32
    requires { (points ≤ 4096) × (i < points) }
    ensures { result ≡ word_at points i }
{
    (i * 0x1_0000_0000 / points) as u32
}

// How far apart points are, in cycles.
#[tactic(auto, unfolding(crate::specs::Points::increment_of))]
pub fn increment_of(points: usize) -> f32
    requires { points ≤ 4096 }
    ensures { result ≡ increment_of points }
{
    1.0 / nearest_u32(points as u32)
}

// The curve's steepest slope for a mode whose own goes by it. For any other mode 1 does as well, and the
// curve need not be walked through.
#[tactic(auto, using(crate::proofs::PointLaws::any_steepest))]
fn steepest_for(mode: u32, curve: Curve<'_>) -> f32
    ensures { Steepest mode curve.entry.values.now result }
{
    match mode {
        REMAP_DRAWN | REMAP_MIRRORED | REMAP_QUAD => curve.steepest(),
        _ => 1.0,
    }
}

// How much faster than the phase slot 1 reads at most, if it is in the phase stage.
#[tactic(auto, unfolding(crate::specs::Points::inner_of), using(floats::specs::Steps::by_taken, floats::specs::Steps::by_left))]
pub fn inner_of(mode: u32, a: f32, curve: Curve<'_>) -> f32
    ensures { result ≡ inner_of mode a curve.entry.values.now }
{
    if in_phase(mode) {
        return stretch_of(mode, a, steepest_for(mode, curve));
    }
    1.0
}

// A slot's map, with half the width of its edges; none where it isn't in the phase stage.
#[tactic(auto, unfolding(phase::specs::Setting::setting_if), using(floats::specs::Steps::by_taken, floats::specs::Steps::by_left))]
pub fn map_of(slot: Slot, amount: f32, half: f32) -> Option<MapSetting>
    ensures { result ≡ setting_if (in_phase slot.mode) slot amount half }
{
    if in_phase(slot.mode) {
        return Some(MapSetting::new(slot, amount, half));
    }
    None
}
