// The settings of a block run from numbers, with coefficients and sine and arctangent numbers on slices.
ghost use Rattle.std.specs.Prelude.{◌≡◌, ◌≤◌, length};
ghost use Rattle.limits.specs.Lengths.{coefs_length, numbers_length};
ghost use Rattle.block.specs.Numbers.{numbers_of, settings_of};

use crate::refusal::CallNumbers;
use halfband::designs_of;
use lanes::Numbers;
use phase::Slot;
use render::BlockSettings;
use shaper::Settings;

// The sine's five numbers, then the arctangent's eight. Number by number: a copy into arrays of zeros would be longer.
#[tactic(auto, using(crate::proofs::NumberLaws::numbers_taken))]
pub fn numbers_of(xs: &[f32]) -> Numbers
    requires { numbers_length ≤ length xs.now }
    ensures { result ≡ numbers_of xs.now }
{
    let sin = [xs[0], xs[1], xs[2], xs[3], xs[4]];
    let atan = [xs[5], xs[6], xs[7], xs[8], xs[9], xs[10], xs[11], xs[12]];
    Numbers { sin, atan }
}

#[tactic(auto, unfolding(crate::specs::Numbers::settings_of))]
pub fn settings_of(
    call: CallNumbers,
    character0: f32,
    character1: f32,
    coefs: &[f32],
    numbers: &[f32],
) -> BlockSettings
    requires coefs_whole { coefs_length ≤ length coefs.now }
    requires numbers_whole { numbers_length ≤ length numbers.now }
    ensures { result ≡ settings_of call.mode0 call.mode1 character0 character1 call.factor call.lanes call.frames call.rate
        call.count0 call.count1 call.count2 coefs.now numbers.now }
{
    BlockSettings {
        shaper: Settings {
            slot0: Slot {
                mode: call.mode0,
                character: character0,
            },
            slot1: Slot {
                mode: call.mode1,
                character: character1,
            },
            factor: call.factor,
            lanes: call.lanes,
            frames: call.frames,
            numbers: numbers_of(numbers),
        },
        rate: call.rate,
        designs: designs_of(coefs, [call.count0, call.count1, call.count2]),
    }
}
