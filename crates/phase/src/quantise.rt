// Quantise: `steps` steps a cycle, each holding the wave's value at its start, crossfaded into the
// next over at most half a step; as the steps grow shorter than a crossfade, both reads move onto the
// running phase, so the steps fade into the plain wave instead of folding.
ghost use Rattle.std.specs.Prelude.{◌≡◌};
ghost use Rattle.reads.specs.Branches.{Makes};
ghost use Rattle.phase.specs.Quantise.{steps_of, line_of, edge_of, branch_of, quantise_of};
ghost use Rattle.phase.specs.Power.{step_count};

use floats::{abs, floor};
use lanes::{above, clamp, min, pick, signed, smoothstep, to_word};
use reads::{Branches, Read};

// f32::MAX.
const MAX: f32 = 3.4028235e38;

// The step sizes: how many steps a cycle has, one step, how far both reads are moved toward the
// running phase, and the crossfade's half width.
#[derive(Clone, Copy)]
pub struct Steps {
    pub steps: f32,
    pub step: f32,
    pub toward: f32,
    pub half: f32,
}

// The nearest grid line, and the last.
#[derive(Clone, Copy)]
pub struct Line {
    pub k: f32,
    pub last: f32,
}

// The nearer edge, a grid line or the cycle's end: how far it is, the held reads to its left and
// right, and where both go as the steps fade.
#[derive(Clone, Copy)]
pub struct Edge {
    pub distance: f32,
    pub left: f32,
    pub right: f32,
    pub target: f32,
}

#[tactic(auto, unfolding(crate::specs::Quantise::steps_of), using(floats::specs::Steps::steps))]
fn steps_of(steps: f32, a: f32, half: f32) -> Steps
    requires { steps ≡ step_count a }
    ensures { result ≡ steps_of a half }
{
    let step = 1.0 / steps;
    let toward = clamp(half * 2.0 * steps - 1.0, 0.0, 1.0);
    let half = min(half, step * 0.499);
    Steps {
        steps,
        step,
        toward,
        half,
    }
}

// The last step: the cycle ends inside it unless `steps` is whole.
#[tactic(auto, unfolding(crate::specs::Quantise::line_of), using(floats::specs::Steps::steps))]
fn line_of(steps: f32, x: f32) -> Line
    ensures { result ≡ line_of steps x }
{
    let last = floor(steps - 1e-4);
    let near = floor(x + 0.5);
    let kept = clamp(near, 1.0, MAX);
    let k = min(kept, last);
    Line { k, last }
}

fn edge_of(steps: f32, step: f32, word: u32) -> Edge
    ensures { result ≡ edge_of steps step word }
{
    let t = signed(word);
    let u = t - floor(t);
    let x = u * steps;
    let line = line_of(steps, x);
    let k = line.k;
    let last = line.last;
    let grid = (x - k) * step;
    let at_end = above(abs(grid) - abs(t));
    let distance = pick(at_end, grid, t);
    let left = pick(at_end, (k - 1.0) * step, last * step - 1.0);
    let right = pick(at_end, k * step, 0.0);
    let target = pick(at_end, u, t) - step * 0.5;
    Edge {
        distance,
        left,
        right,
        target,
    }
}

// A held read moved toward the running phase, as a word.
#[tactic(auto, unfolding(crate::specs::Quantise::branch_of), using(floats::specs::Steps::steps))]
fn branch(target: f32, toward: f32, at: f32) -> u32
    ensures { result ≡ branch_of target toward at }
{
    to_word((target - at) * toward + at)
}

#[tactic(auto, unfolding(crate::specs::Quantise::quantise_of), using(floats::specs::Steps::steps))]
pub fn quantise(steps: f32, a: f32, half: f32, read: Read) -> Branches
    requires { steps ≡ step_count a }
    ensures { Makes result (quantise_of a half read.word read.gain) }
{
    let s = steps_of(steps, a, half);
    let e = edge_of(s.steps, s.step, read.word);
    let left = branch(e.target, s.toward, e.left);
    let right = branch(e.target, s.toward, e.right);
    let weight = smoothstep((e.distance + s.half) / (2.0 * s.half));
    Branches::pair(right, weight, left, read.gain)
}
