// What a block needs. The parameters are C's, one by one.
ghost use Rattle.std.specs.Prelude.{◌≡◌};
ghost use Rattle.plan.specs.Plan.{block_numbers, plan_of};

use plan::{BlockNumbers, Plan, plan_of};

// `plan::plan_of`.
#[unsafe(no_mangle)]
pub extern "C" fn shaper_plan(
    factor: u32,
    lanes: u32,
    active: u32,
    frames: u32,
    count0: u32,
    count1: u32,
    count2: u32,
) -> Plan
    ensures { result ≡ plan_of (block_numbers factor lanes active frames count0 count1 count2) }
{
    plan_of(BlockNumbers {
        lanes,
        active,
        factor,
        frames,
        count0,
        count1,
        count2,
    })
}
