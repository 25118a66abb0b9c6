// The remap curve of curve.rs, rendered by the caller to a lent table: its value and its steepest slope.
#![tactic(auto)]

ghost use Rattle.std.specs.Prelude.{◌≡◌, ◌<◌, length, IfOk, IfErr};
ghost use Rattle.limits.specs.Refusals.{value_answer};
ghost use Rattle.curve.specs.Curve.{segment_of, value_of, slope_of, steepest_of};
ghost use Rattle.curve.specs.Answers.{answered};

use floats::{abs, cast_usize, nearest_u32};
use lanes::{clamp, max};
use limits::{CURVE_LENGTH, Refusal};

// The steepest slope that a curve is read with.
const MAX_CURVE_STRETCH: f32 = 16.0;

// A lent table of at least 1,025 values, of which those past them are not read.
#[derive(Clone, Copy)]
pub struct Curve<'a> {
    pub values: &'a [f32],
    ghost whole: { 1024 < length values.now },
}

// The segment that `at` lies in: 0 to 1,023, 0 for a NaN.
fn segment(at: f32) -> usize
    ensures { result ≡ segment_of at }
{
    cast_usize(at).min(1023)
}

impl<'a> Curve<'a> {
    // A table that is too short is refused. `Cycle::new` of reads is the same of another length: a struct for both,
    // with the length as a const parameter, could have methods in one crate alone.
    pub fn new(values: &'a [f32]) -> Result<Curve<'a>, Refusal>
        ensures ok { IfOk result (λ curve. curve.values.now ≡ values.now × 1024 < length values.now) }
        ensures err { IfErr result (λ refusal. refusal ≡ Refusal.ShortRead × length values.now < 1025) }
    {
        if values.len() < CURVE_LENGTH {
            return Err(Refusal::ShortRead);
        }
        Ok(Curve { values })
    }

    // The curve's value at `x` (0 to 1), linear between the table's values.
    #[tactic(auto, unfolding(crate::specs::Curve::value_of), using(floats::specs::Steps::steps))]
    pub fn value(self, x: f32) -> f32
        ensures { result ≡ value_of self.entry.values.now x }
    {
        let at = clamp(x, 0.0, 1.0) * 1024.0;
        let i = segment(at);
        let t = at - nearest_u32(i as u32);
        self.values[i] + (self.values[i + 1] - self.values[i]) * t
    }

    // The steepest slope, at least 1 and at most 16.
    pub fn steepest(self) -> f32
        ensures { result ≡ steepest_of self.entry.values.now }
    {
        let mut steepest = 0.0;
        for pair in self.values[..CURVE_LENGTH].windows(2) {
            steepest = max(steepest, abs(pair[1] - pair[0]));
        }
        clamp(steepest * 1024.0, 1.0, MAX_CURVE_STRETCH)
    }
}

// `Curve::value` and `Curve::steepest` of a table that may be too short.
#[tactic(auto, using(crate::proofs::Answers::refuses, crate::proofs::Answers::accepts))]
pub fn value(values: &[f32], x: f32) -> Result<f32, Refusal>
    ensures { value_answer result ≡ answered values.now (value_of values.now x) }
{
    Ok(Curve::new(values)?.value(x))
}

#[tactic(auto, using(crate::proofs::Answers::refuses, crate::proofs::Answers::accepts))]
pub fn steepest(values: &[f32]) -> Result<f32, Refusal>
    ensures { value_answer result ≡ answered values.now (steepest_of values.now) }
{
    Ok(Curve::new(values)?.steepest())
}
