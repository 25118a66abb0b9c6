// Where a render's amounts and sources come from: `Amounts` of mod.rs, over lent slices. An empty slice
// is an absent one.
#![tactic(auto)]

ghost use Rattle.std.specs.Prelude.{◌≡◌};
ghost use Rattle.controls.specs.Controls.{percent_of};

pub mod frame;
pub mod slices;

pub use frame::LaneFrame;
use lanes::clamp;
pub use slices::ControlSlices;

// A slot's amount in percent as 0 to 1.
#[tactic(auto, unfolding(crate::specs::Controls::percent_of), using(floats::specs::Steps::step))]
pub fn percent(amount: f32) -> f32
    ensures { result ≡ percent_of amount }
{
    clamp(amount, 0.0, 100.0) * 0.01
}
