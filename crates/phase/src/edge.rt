// What the maps have in common: the running phase, edges without aliasing, the lean map's offset and the
// drawn curve.
ghost use Rattle.std.specs.Prelude.{◌≡◌};
ghost use Rattle.phase.specs.Edge.{unit_of, wrap_of, edge_step, smooth_box, lean_offset, remap_of};

use curve::Curve;
use floats::floor;
use lanes::{Numbers, atan, clamp, cos_cycles, lookup, signed, sin_cycles, smoothstep};

const FRAC_1_PI: f32 = 0.31830987;

// The running phase `word` read as a fraction of a cycle, 0 to 1.
pub fn unit(word: u32) -> f32
    ensures { result ≡ unit_of word }
{
    let t = signed(word);
    // Its floor is -1 or 0. The law of that asks only that `t` lies between -1 and 1.
    if t < 1.0 {
        if t > -1.0 {
            return if t < 0.0 { t + 1.0 } else { t + 0.0 };
        }
    }
    t - floor(t)
}

// `x` wrapped to -1/2 to 1/2.
#[tactic(auto, unfolding(crate::specs::Edge::wrap_of), using(floats::specs::Steps::steps))]
pub fn wrap(x: f32) -> f32
    ensures { result ≡ wrap_of x }
{
    x - floor(x + 0.5)
}

// The step across an edge at 0, smoothed `half` cycles either side.
#[tactic(auto, unfolding(crate::specs::Edge::edge_step), using(floats::specs::Steps::steps))]
fn edge_step(half: f32, x: f32) -> f32
    ensures { result ≡ edge_step half x }
{
    let width = 2.0 * half;
    smoothstep((x + half) / width)
}

// A box of half-length `extent` centred on 0, repeating every cycle, its edges smoothed `half`
// cycles either side, at `v` cycles from its centre.
#[tactic(auto, unfolding(crate::specs::Edge::smooth_box), using(floats::specs::Steps::steps))]
pub fn smooth_box(v: f32, extent: f32, half: f32) -> f32
    ensures { result ≡ smooth_box v extent half }
{
    let rise = edge_step(half, v + extent);
    let fall = edge_step(half, v - extent);
    let next = edge_step(half, v + extent - 1.0);
    let last = edge_step(half, v - extent + 1.0);
    let inside = rise - fall + next + 1.0 - last;
    clamp(inside, 0.0, 1.0)
}

// The lean map's offset at `x` cycles, for strength `beta` (|β| < 2).
#[tactic(auto, unfolding(crate::specs::Edge::lean_offset), using(floats::specs::Steps::steps))]
pub fn lean_offset(numbers: Numbers, x: f32, beta: f32) -> f32
    ensures { result ≡ lean_offset numbers.sin numbers.atan x beta }
{
    let k = cos_cycles(numbers, x);
    let s = sin_cycles(numbers, x);
    let ratio = beta * (1.0 - k) / (2.0 - beta * s);
    atan(numbers, ratio) * FRAC_1_PI
}

// The drawn curve blended from identity by `a`, at `x` (0 to 1).
#[tactic(auto, unfolding(crate::specs::Edge::remap_of), using(floats::specs::Steps::steps))]
pub fn remap(curve: Curve<'_>, a: f32, x: f32) -> f32
    ensures { result ≡ remap_of curve.entry.values.now a x }
{
    let y = lookup(curve.values, x);
    (y - x) * a + x
}
