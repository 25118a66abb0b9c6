// The phase side: the curve, stretch, and read lists of two slots.
ghost use Rattle.std.specs.Prelude.{◌≡◌, ◌<◌, ◌≤◌, length};
ghost use Rattle.curve.specs.Curve.{value_of, steepest_of};
ghost use Rattle.curve.specs.Answers.{answered};
ghost use Rattle.slope.specs.Slope.{stretch_answer};
ghost use Rattle.probe.specs.Phases.{reads_of, reads_or_none, sample_of, run_length};
ghost use Rattle.probe.specs.Runs.{Ran};

use curve::Curve;
use lanes::Numbers;
use limits::Value;
use phase::{MapSetting, Slot, Tables};
use reads::{Cycle, LaneReads, ReadList};

// Two slots' modes, characters and amounts.
#[repr(C)]
#[derive(Clone, Copy)]
pub struct Slots {
    pub mode0: u32,
    pub mode1: u32,
    pub character0: f32,
    pub character1: f32,
    pub amount0: f32,
    pub amount1: f32,
}

#[unsafe(no_mangle)]
pub extern "C" fn probe_curve_value(curve: &[f32], x: f32) -> Value
    ensures { result ≡ answered curve.now (value_of curve.now x) }
{
    Value::from(curve::value(curve, x))
}

#[unsafe(no_mangle)]
pub extern "C" fn probe_curve_steepest(curve: &[f32]) -> Value
    ensures { result ≡ answered curve.now (steepest_of curve.now) }
{
    Value::from(curve::steepest(curve))
}

#[unsafe(no_mangle)]
pub extern "C" fn probe_stretch(mode: u32, amount: f32, curve: f32) -> Value
    ensures { result ≡ stretch_answer mode amount curve }
{
    Value::from(slope::stretch(mode, amount, curve))
}

// The read list of two slots without offsets: slot 1 maps first, then slot 0 with half width times
// `inner`.
#[tactic(auto, using(reads::proofs::Few::start_few, reads::proofs::Few::outgoing_few, phase::proofs::Few::apply_few))]
fn reads(tables: Tables<'_>, slots: Slots, half: f32, inner: f32, word: u32) -> LaneReads
    ensures value { result ≡ reads_of tables.entry.numbers.sin tables.entry.numbers.atan tables.entry.curve.values.now slots half inner word }
    ensures count_bound { result.count ≤ 4 }
{
    let slot1 = Slot {
        mode: slots.mode1,
        character: slots.character1,
    };
    let slot0 = Slot {
        mode: slots.mode0,
        character: slots.character0,
    };
    let map1 = MapSetting::new(slot1, slots.amount1, half);
    let map0 = MapSetting::new(slot0, slots.amount0, half * inner);
    let first = phase::apply(tables, map1, ReadList::start(word));
    LaneReads::from(phase::apply(tables, map0, first))
}

// The same as an export; zeros where the curve is too short.
#[tactic(auto, unfolding(crate::specs::Phases::reads_or_none))]
#[unsafe(no_mangle)]
pub extern "C" fn probe_apply(
    numbers: Numbers,
    curve: &[f32],
    slots: Slots,
    half: f32,
    inner: f32,
    word: u32,
) -> LaneReads
    ensures { result ≡ reads_or_none numbers.sin numbers.atan curve.now slots half inner word }
{
    match Curve::new(curve) {
        Ok(curve) => reads(Tables { numbers, curve }, slots, half, inner, word),
        Err(_) => LaneReads {
            phase: [0; 4],
            gain: [0.0; 4],
            count: 0,
        },
    }
}

// The sum of the reads of the cycle at each of `words`, as far as `out` has room; how many they are, none where a
// table is too short. By index, as in leaf.rt.
#[tactic(auto, unfolding(crate::specs::Phases::run_length, crate::specs::Phases::sample_of))]
#[unsafe(no_mangle)]
pub extern "C" fn probe_reads_run(
    numbers: Numbers,
    curve: &[f32],
    cycle: &[f32],
    slots: Slots,
    half: f32,
    inner: f32,
    words: &[u32],
    out: &mut [f32],
) -> usize
    ensures value { result ≡ run_length (length curve.now) (length cycle.now) (length words.now) (length out.old) }
    ensures ran { Ran (sample_of numbers.sin numbers.atan curve.now cycle.now slots half inner words.now) out.old out.new result }
{
    let Ok(curve) = Curve::new(curve) else {
        return 0;
    };
    let Ok(cycle) = Cycle::new(cycle) else {
        return 0;
    };
    let tables = Tables { numbers, curve };
    let n = words.len().min(out.len());
    for i in 0..n {
        out[i] = cycle.sum(reads(tables, slots, half, inner, words[i]));
    }
    n
}
