// What drives a slot at a host frame.
ghost use Rattle.std.specs.Prelude.{◌≡◌, ◌*◌, length};
ghost use Rattle.std.proofs.Math.Option.{none};
ghost use Rattle.controls.specs.Controls.{lent_of};
ghost use Rattle.limits.specs.Lengths.{Holds};
ghost use Rattle.render.specs.Frames.{drive_at};

use crate::state::Drive;
use controls::{LaneFrame, percent};
use voice::power_of;

// Without modulation: the same at every host frame, so that it is worked out once for a range.
#[tactic(auto, unfolding(crate::specs::Frames::drive_at, controls::specs::Controls::amount_at))]
pub fn still_drive(mode: u32, base: f32) -> Drive
    ensures { result ≡ drive_at mode base none 0 }
{
    let amount = percent(base);
    Drive {
        amount,
        power: power_of(mode, amount),
    }
}

// At a host frame; `still` is what it is without modulation.
#[tactic(auto, unfolding(crate::specs::Frames::drive_at, controls::specs::Controls::amount_at, controls::specs::Controls::lent_of))]
pub fn drive_at(mode: u32, base: f32, still: Drive, modulation: &[f32], at: LaneFrame) -> Drive
    requires without { still ≡ drive_at mode base none 0 }
    requires held { Holds (at.frames * at.lane.lanes) (length modulation.now) }
    ensures { result ≡ drive_at mode base (lent_of at.lane.lanes at.lane.index at.frames modulation.now) at.host }
{
    if modulation.is_empty() {
        return still;
    }
    let amount = at.amount(base, modulation);
    Drive {
        amount,
        power: power_of(mode, amount),
    }
}
