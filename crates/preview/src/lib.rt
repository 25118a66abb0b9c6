// The picture of one shaped cycle, for a panel: `Shapers::preview` of mod.rs.
#![tactic(auto)]

pub mod drawing;
pub mod filtering;
pub mod points;
pub mod refusal;
pub mod shaping;

ghost use Rattle.limits.specs.Lengths.{numbers_length};
ghost use Rattle.limits.specs.Refusals.{answer_of};
ghost use Rattle.preview.specs.Drawn.{Drawn};

use curve::Curve;
pub use drawing::draw;
use lanes::Numbers;
use limits::{NUMBERS_LENGTH, Refusal};
use phase::Tables;
pub use points::PanelSlot;
use reads::Cycle;
pub use refusal::check;

// One cycle through both slots at amounts in percent, as many points as `picture` has, from phase 0: their
// number. Edges are drawn sharp, filters after 15 cycles, and a mode with a source as though it had none.
pub fn preview(
    panel0: PanelSlot,
    panel1: PanelSlot,
    numbers: Numbers,
    curve: &[f32],
    cycle: &[f32],
    picture: &mut [f32],
) -> Result<u32, Refusal>
    ensures { Drawn panel0.slot panel1.slot panel0.percent panel1.percent numbers numbers_length curve.now cycle.now
        picture.old picture.new (answer_of result) }
{
    check(
        panel0.slot.mode,
        panel1.slot.mode,
        picture.len(),
        curve.len(),
        cycle.len(),
        NUMBERS_LENGTH,
    )?;
    let tables = Tables {
        numbers,
        curve: Curve { values: curve },
    };
    let cycle = Cycle { samples: cycle };
    Ok(draw(tables, cycle, panel0, panel1, picture))
}
