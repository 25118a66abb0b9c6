// The decimation. The parameters are C's, one by one.
ghost use Rattle.std.specs.Prelude.{length, slice_index};
ghost use Rattle.limits.specs.Refusals.{answer_of};
ghost use Rattle.halfband.specs.Floats.{designs_of};
ghost use Rattle.halfband.specs.Decimated.{Decimated};

use halfband::{CallNumbers, check, designs_of, process};
use limits::{Answer, Refusal};

// `halfband::process`, with the coefficients of designs 0, 1 and 2 on one slice.
fn decimate(
    call: CallNumbers,
    counts: [u32; 3],
    coefs: &[f32],
    buffer: &mut [f32],
    state: &mut [f32],
) -> Result<u32, Refusal>
    ensures { Decimated (designs_of coefs.now (slice_index counts 0) (slice_index counts 1) (slice_index counts 2)) (length coefs.now)
        call.factor call.lanes call.active call.frames buffer.old state.old buffer.new state.new (answer_of result) }
{
    check(call, counts, coefs.len(), buffer.len(), state.len())?;
    process(designs_of(coefs, counts), call, buffer, state)
}

#[unsafe(no_mangle)]
pub extern "C" fn shaper_decimate(
    factor: u32,
    lanes: u32,
    active: u32,
    frames: u32,
    count0: u32,
    count1: u32,
    count2: u32,
    coefs: &[f32],
    buffer: &mut [f32],
    state: &mut [f32],
) -> Answer
    ensures { Decimated (designs_of coefs.now count0 count1 count2) (length coefs.now)
        factor lanes active frames buffer.old state.old buffer.new state.new result }
{
    let call = CallNumbers {
        factor,
        lanes,
        active,
        frames,
    };
    Answer::from(decimate(call, [count0, count1, count2], coefs, buffer, state))
}
