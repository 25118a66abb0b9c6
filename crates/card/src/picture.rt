// The picture on a panel. The parameters are C's, one by one.
ghost use Rattle.std.specs.Prelude.{length};
ghost use Rattle.block.specs.Numbers.{numbers_of};
ghost use Rattle.limits.specs.Refusals.{answer_of};
ghost use Rattle.preview.specs.Drawn.{slot_of, Drawn};

use block::numbers_of;
use curve::Curve;
use limits::{Answer, Refusal};
use phase::{Slot, Tables};
use preview::{PanelSlot, check, draw};
use reads::Cycle;

// `preview::preview` with sine and arctangent numbers on a slice, which is read once it is known to be long
// enough.
#[tactic(auto, using(preview::proofs::DrawnLaws::passed, limits::proofs::LengthLaws::long_enough, preview::proofs::DrawnLaws::fits), unfolding(limits::specs::Refusals::number_of))]
fn preview(
    panel0: PanelSlot,
    panel1: PanelSlot,
    numbers: &[f32],
    curve: &[f32],
    cycle: &[f32],
    picture: &mut [f32],
) -> Result<u32, Refusal>
    ensures { Drawn panel0.slot panel1.slot panel0.percent panel1.percent (numbers_of numbers.now) (length numbers.now) curve.now cycle.now
        picture.old picture.new (answer_of result) }
{
    check(
        panel0.slot.mode,
        panel1.slot.mode,
        picture.len(),
        curve.len(),
        cycle.len(),
        numbers.len(),
    )?;
    let tables = Tables {
        numbers: numbers_of(numbers),
        curve: Curve { values: curve },
    };
    let cycle = Cycle { samples: cycle };
    Ok(draw(tables, cycle, panel0, panel1, picture))
}

#[unsafe(no_mangle)]
pub extern "C" fn shaper_preview(
    mode0: u32,
    mode1: u32,
    character0: f32,
    character1: f32,
    amount0: f32,
    amount1: f32,
    numbers: &[f32],
    curve: &[f32],
    cycle: &[f32],
    picture: &mut [f32],
) -> Answer
    ensures { Drawn (slot_of mode0 character0) (slot_of mode1 character1) amount0 amount1 (numbers_of numbers.now) (length numbers.now)
        curve.now cycle.now picture.old picture.new result }
{
    let panel0 = PanelSlot {
        slot: Slot {
            mode: mode0,
            character: character0,
        },
        percent: amount0,
    };
    let panel1 = PanelSlot {
        slot: Slot {
            mode: mode1,
            character: character1,
        },
        percent: amount1,
    };
    Answer::from(preview(panel0, panel1, numbers, curve, cycle, picture))
}
