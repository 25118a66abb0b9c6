// The wave side: the curves, the filters, and a slot on one sample and over a run of them. The parameters are C's,
// which gives each by itself.
ghost use Rattle.std.specs.Prelude.{◌≡◌, length};
ghost use Rattle.wave.specs.Filter.{cutoff_harmonic, damping_of, filter_of};
ghost use Rattle.wave.specs.Curve.{curve_of};
ghost use Rattle.wave.specs.Integral.{integral_of};
ghost use Rattle.wave.specs.Smooth.{drive_of, distort_of, distort_smooth};
ghost use Rattle.probe.specs.Runs.{Ran};
ghost use Rattle.probe.specs.Waves.{heard_of, slot_of, start_in, shaped_at, end_of, shape_length};

use lanes::Numbers;
use wave::{Filtered, Svf};

#[unsafe(no_mangle)]
pub extern "C" fn probe_wave_curve(numbers: Numbers, mode: u32, x: f32) -> f32
    ensures { result ≡ curve_of numbers.sin mode x }
{
    wave::curve(numbers, mode, x)
}

#[unsafe(no_mangle)]
pub extern "C" fn probe_wave_integral(numbers: Numbers, mode: u32, x: f32) -> f32
    ensures { result ≡ integral_of numbers.sin mode x }
{
    wave::integral(numbers, mode, x)
}

#[unsafe(no_mangle)]
pub extern "C" fn probe_distort(numbers: Numbers, mode: u32, a: f32, x: f32) -> f32
    ensures { result ≡ distort_of numbers.sin mode a x }
{
    wave::distort(numbers, mode, a, x)
}

#[unsafe(no_mangle)]
pub extern "C" fn probe_drive(mode: u32, a: f32) -> f32
    ensures { result ≡ drive_of mode a }
{
    wave::drive(mode, a)
}

#[unsafe(no_mangle)]
pub extern "C" fn probe_cutoff_harmonic(mode: u32, a: f32) -> f32
    ensures { result ≡ cutoff_harmonic mode a }
{
    wave::cutoff_harmonic(mode, a)
}

#[unsafe(no_mangle)]
pub extern "C" fn probe_damping(character: f32) -> f32
    ensures { result ≡ damping_of character }
{
    wave::damping(character)
}

#[unsafe(no_mangle)]
pub extern "C" fn probe_filter(
    numbers: Numbers,
    mode: u32,
    harmonic: f32,
    increment: f32,
    k: f32,
    x: f32,
    state: Svf,
) -> Filtered
    ensures { result ≡ filter_of numbers.sin mode harmonic increment k x state }
{
    wave::filter(numbers, mode, harmonic, increment, k, x, state)
}

#[unsafe(no_mangle)]
pub extern "C" fn probe_distort_smooth(
    numbers: Numbers,
    mode: u32,
    a: f32,
    x: f32,
    state: Svf,
) -> Filtered
    ensures { result ≡ distort_smooth numbers.sin mode a x state }
{
    wave::distort_smooth(numbers, mode, a, x, state)
}

// What a slot hears: `source`, unless `sourced` is 0.
#[tactic(auto, unfolding(crate::specs::Waves::heard_of))]
fn heard(sourced: u32, source: f32) -> Option<f32>
    ensures { result ≡ heard_of sourced source }
{
    if sourced == 0 { None } else { Some(source) }
}

// A slot on one sample: its setting, and the sample shaped by it.
#[tactic(auto, unfolding(crate::specs::Waves::slot_of))]
#[unsafe(no_mangle)]
pub extern "C" fn probe_shape(
    numbers: Numbers,
    mode: u32,
    a: f32,
    character: f32,
    sourced: u32,
    source: f32,
    increment: f32,
    x: f32,
    state: Svf,
) -> Filtered
    ensures { result ≡ slot_of numbers.sin mode a character sourced source increment x state }
{
    let setting = wave::setting_of(mode, a, character, heard(sourced, source));
    wave::shape(numbers, mode, setting, increment, x, state)
}

// Each of `xs` through one slot, as far as `out` has room; how many they are. The slot's state is the first
// two cells of `state`; where it has fewer, none are shaped. By index, as in leaf.rt.
#[tactic(auto, unfolding(crate::specs::Waves::shape_length, crate::specs::Waves::end_of, crate::specs::Waves::slot_of, crate::specs::Waves::shaped_at, crate::specs::Waves::state_after, crate::specs::Waves::start_in), using(crate::proofs::Shaped::state_more, crate::proofs::Shaped::shaped))]
#[unsafe(no_mangle)]
pub extern "C" fn probe_shape_run(
    numbers: Numbers,
    mode: u32,
    a: f32,
    character: f32,
    sourced: u32,
    source: f32,
    increment: f32,
    xs: &[f32],
    out: &mut [f32],
    state: &mut [f32],
) -> usize
    ensures value { result ≡ shape_length (length xs.now) (length out.old) (length state.old) }
    ensures ran { Ran (shaped_at (slot_of numbers.sin mode a character sourced source increment) xs.now (start_in state.old)) out.old out.new result }
    ensures state_after { state.new ≡ end_of (slot_of numbers.sin mode a character sourced source increment) xs.now state.old result }
{
    if state.len() < 2 {
        return 0;
    }
    let n = xs.len().min(out.len());
    let setting = wave::setting_of(mode, a, character, heard(sourced, source));
    let mut s = Svf {
        ic1: state[0],
        ic2: state[1],
    };
    for i in 0..n {
        let shaped = wave::shape(numbers, mode, setting, increment, xs[i], s);
        out[i] = shaped.y;
        s = shaped.state;
    }
    state[0] = s.ic1;
    state[1] = s.ic2;
    n
}
