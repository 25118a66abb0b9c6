// The maps: one function for each arm of the Rust's `map`, each saying what it makes of one read,
// `read`, at amount `a` with crossfades `half` cycles either side of each edge.
ghost use Rattle.std.specs.Prelude.{◌≡◌, ◌<◌, ◌≤◌, slice_index_or};
ghost use Rattle.std.specs.Float.{nan};
ghost use Rattle.reads.specs.Branches.{Makes};
ghost use Rattle.phase.specs.Map.{sync_map, pinch_map, lean_map, pulse_width_map, flip_map, mirror_map, odd_even_map, remap_drawn_map, remap_mirrored_map, remap_quad_map, remap_sine_map, map_of, apply_of};
ghost use Rattle.phase.specs.Power.{ratio_of};

use crate::edge::{lean_offset, remap, smooth_box, unit, wrap};
use crate::quantise::quantise;
use crate::setting::{MapSetting, Tables};
use curve::Curve;
use floats::floor;
use lanes::{
    Numbers, above, add_words, atan, clamp, cos_cycles, lookup, max, min, pick, signed, sin_cycles,
    smoothstep, to_word,
};
use modes::numbers::{
    FLIP, LEAN, LEAN_LEFT, LEAN_RIGHT, MIRROR, ODD_EVEN, PINCH, PINCH_IN, PINCH_OUT, PULSE_WIDTH,
    QUANTISE, REMAP_DRAWN, REMAP_MIRRORED, REMAP_QUAD, REMAP_SINE, SYNC,
};
use reads::{Branches, Read, ReadList};
use slope::{LEAN_MAX, PULSE_MAX, lean_strength, pinch_strength};

const FRAC_1_PI: f32 = 0.31830987;

const TAU: f32 = 6.2831855;

// What a slot shapes with during a render, beside the lent curve: its mode and character.
#[derive(Clone, Copy)]
pub struct Slot {
    pub mode: u32,
    pub character: f32,
}

// The slave runs `ratio` times faster and restarts with the cycle: after the restart it's at
// ratio × t, before it at ratio × (t + 1). Softness widens the crossfade at the restart.
fn sync(ratio: f32, character: f32, a: f32, half: f32, read: Read) -> Branches
    requires { ratio ≡ ratio_of a }
    ensures { Makes result (sync_map character a half read.word read.gain) }
{
    let t = signed(read.word);
    let after = to_word(ratio * t);
    let whole = to_word(ratio);
    let before = add_words(after, whole);
    let soft = clamp(character, 0.0, 1.0);
    let wide = max(half, 0.5 * soft);
    let half = min(wide, 0.5);
    let weight = smoothstep((t + half) / (2.0 * half));
    Branches::pair(after, weight, before, read.gain)
}

// A hyperbolic circle map at twice the cycle's rate: points flow towards the quarter points (inward)
// or away from them.
fn pinch(numbers: Numbers, mode: u32, a: f32, read: Read) -> Branches
    ensures { Makes result (pinch_map numbers.sin numbers.atan mode a read.word read.gain) }
{
    let strength = pinch_strength(mode, a);
    let x = unit(read.word) * 2.0;
    let s = sin_cycles(numbers, x);
    let k = cos_cycles(numbers, x);
    let angle = atan(numbers, strength * s / (strength * k + 1.0));
    let offset = -angle * (0.5 * FRAC_1_PI);
    Branches::one(Read {
        word: add_words(read.word, to_word(offset)),
        gain: read.gain,
    })
}

#[tactic(auto, unfolding(crate::specs::Map::lean_map), using(floats::specs::Steps::steps))]
fn lean(numbers: Numbers, mode: u32, a: f32, read: Read) -> Branches
    ensures { Makes result (lean_map numbers.sin numbers.atan mode a read.word read.gain) }
{
    let beta = lean_strength(mode, a);
    let offset = lean_offset(numbers, unit(read.word), beta);
    Branches::one(Read {
        word: add_words(read.word, to_word(offset)),
        gain: read.gain,
    })
}

// The cycle squeezed into its first `length`, then the start held: a box of the squeezed read and
// the hold.
#[tactic(auto, unfolding(crate::specs::Map::pulse_width_map), using(floats::specs::Steps::steps))]
fn pulse_width(a: f32, half: f32, read: Read) -> Branches
    ensures { Makes result (pulse_width_map a half read.word read.gain) }
{
    let length = 1.0 - a * PULSE_MAX;
    let centre = length * 0.5;
    let v = wrap(unit(read.word) - centre);
    let squeezed = to_word((centre + v) / length);
    let weight = smooth_box(v, centre, half);
    Branches::pair(squeezed, weight, 0, read.gain)
}

// Inverted from 1 - a to the end of the cycle.
#[tactic(auto, unfolding(crate::specs::Map::flip_map), using(floats::specs::Steps::steps))]
fn flip(a: f32, half: f32, read: Read) -> Branches
    ensures { Makes result (flip_map a half read.word read.gain) }
{
    let half_length = a * 0.5;
    let v = wrap(unit(read.word) - (1.0 - half_length));
    let inverted = smooth_box(v, half_length, half);
    Branches::weighted(Read {
        word: read.word,
        gain: read.gain * (1.0 - 2.0 * inverted),
    })
}

// The first half of the wave, leaned, then the same backwards.
fn mirror(numbers: Numbers, a: f32, half: f32, read: Read) -> Branches
    ensures { Makes result (mirror_map numbers.sin numbers.atan a half read.word read.gain) }
{
    let beta = -a * LEAN_MAX;
    let v = wrap(unit(read.word) - 0.25);
    let forward_at = (0.25 + v) * 2.0;
    let backward_at = 1.5 - v * 2.0;
    let forward = (forward_at + lean_offset(numbers, forward_at, beta)) * 0.5;
    let backward = (backward_at + lean_offset(numbers, backward_at, beta)) * 0.5;
    let weight = smooth_box(v, 0.25, half);
    Branches::pair(to_word(forward), weight, to_word(backward), read.gain)
}

// Odd part (w(φ) - w(φ + 1/2)) / 2 and even part (w(φ) + w(φ + 1/2)) / 2, the odd at full level to
// 50 % and the even from it.
#[tactic(auto, unfolding(crate::specs::Map::odd_even_map), using(floats::specs::Steps::steps))]
fn odd_even(a: f32, read: Read) -> Branches
    ensures { Makes result (odd_even_map a read.word read.gain) }
{
    let odd = min(2.0 * (1.0 - a), 1.0);
    let even = min(2.0 * a, 1.0);
    let first = Read {
        word: read.word,
        gain: read.gain * (odd + even) * 0.5,
    };
    let second = Read {
        word: add_words(read.word, 0x8000_0000),
        gain: read.gain * (even - odd) * 0.5,
    };
    Branches::both(first, second)
}

#[tactic(auto, unfolding(crate::specs::Map::remap_drawn_map), using(floats::specs::Steps::steps))]
fn remap_drawn(curve: Curve<'_>, a: f32, read: Read) -> Branches
    ensures { Makes result (remap_drawn_map curve.entry.values.now a read.word read.gain) }
{
    let u = unit(read.word);
    let y = lookup(curve.values, u);
    Branches::one(Read {
        word: add_words(read.word, to_word(a * (y - u))),
        gain: read.gain,
    })
}

fn remap_mirrored(curve: Curve<'_>, a: f32, read: Read) -> Branches
    ensures { Makes result (remap_mirrored_map curve.entry.values.now a read.word read.gain) }
{
    let u = unit(read.word);
    let second = above(u - 0.5);
    let x = pick(second, u * 2.0, 2.0 - u * 2.0);
    let y = remap(curve, a, x) * 0.5;
    let word = to_word(pick(second, y, 1.0 - y));
    Branches::one(Read {
        word,
        gain: read.gain,
    })
}

fn remap_quad(curve: Curve<'_>, a: f32, read: Read) -> Branches
    ensures { Makes result (remap_quad_map curve.entry.values.now a read.word read.gain) }
{
    let u = unit(read.word) * 4.0;
    let quarter = floor(u);
    let y = (quarter + remap(curve, a, u - quarter)) * 0.25;
    let word = to_word(y);
    Branches::one(Read {
        word,
        gain: read.gain,
    })
}

#[tactic(auto, unfolding(crate::specs::Map::remap_sine_map), using(floats::specs::Steps::steps))]
fn remap_sine(numbers: Numbers, a: f32, read: Read) -> Branches
    ensures { Makes result (remap_sine_map numbers.sin a read.word read.gain) }
{
    let offset = -a * sin_cycles(numbers, unit(read.word)) * (1.0 / TAU);
    Branches::one(Read {
        word: add_words(read.word, to_word(offset)),
        gain: read.gain,
    })
}

// One read through a slot's map; a mode that is no phase mode, or moves the phase by a source, keeps it. A
// `match`: C's number comes in, and a map chosen once as a closure would have to live on the heap.
#[tactic(auto, unfolding(crate::specs::Map::map_of, crate::specs::Power::map_power, modes::specs::Choice::case_of))]
pub fn map(tables: Tables<'_>, setting: MapSetting, read: Read) -> Branches
    ensures { Makes result (map_of tables.entry.numbers.sin tables.entry.numbers.atan tables.entry.curve.values.now
        setting.slot setting.amount setting.half read.word read.gain) }
{
    let Tables { numbers, curve } = tables;
    let Slot { mode, character } = setting.slot;
    let a = setting.amount;
    let power = setting.power;
    let half = setting.half;
    match mode {
        SYNC => sync(power, character, a, half, read),
        PINCH_IN | PINCH_OUT | PINCH => pinch(numbers, mode, a, read),
        PULSE_WIDTH => pulse_width(a, half, read),
        LEAN_RIGHT | LEAN_LEFT | LEAN => lean(numbers, mode, a, read),
        FLIP => flip(a, half, read),
        MIRROR => mirror(numbers, a, half, read),
        REMAP_DRAWN => remap_drawn(curve, a, read),
        REMAP_MIRRORED => remap_mirrored(curve, a, read),
        REMAP_SINE => remap_sine(numbers, a, read),
        REMAP_QUAD => remap_quad(curve, a, read),
        QUANTISE => quantise(power, a, half, read),
        ODD_EVEN => odd_even(a, read),
        _ => Branches::one(read),
    }
}

fn read_of(list: ReadList, i: usize) -> Read
    requires { i < 4 }
    ensures { result ≡ (record { word = slice_index_or list.word i 0; gain = slice_index_or list.gain i nan }) }
{
    Read {
        word: list.word[i],
        gain: list.gain[i],
    }
}

// The read list after a slot shapes `list`. Each read has its own place, so that the list can stay in
// registers; and with `map` at more than one place the compiler keeps it a function, and does not work out
// every mode's numbers for each. That there are four at the most is asked for: why no ghost field says it,
// `ReadList` tells.
#[tactic(auto, unfolding(crate::specs::Map::apply_of, crate::specs::Map::mapped, crate::specs::Map::emptied, reads::specs::Reads::empty_of))]
pub fn apply(tables: Tables<'_>, setting: MapSetting, list: ReadList) -> ReadList
    requires { list.count ≤ 4 }
    ensures { result ≡ apply_of tables.entry.numbers.sin tables.entry.numbers.atan tables.entry.curve.values.now
        setting.slot setting.amount setting.half list }
{
    let n = list.count;
    let out = ReadList {
        weighted: list.weighted,
        ..ReadList::empty(list.word[0])
    };
    if n == 0 {
        return out;
    }
    let out = out.append(map(tables, setting, read_of(list, 0)));
    if n == 1 {
        return out;
    }
    let out = out.append(map(tables, setting, read_of(list, 1)));
    if n == 2 {
        return out;
    }
    let out = out.append(map(tables, setting, read_of(list, 2)));
    if n == 3 {
        return out;
    }
    out.append(map(tables, setting, read_of(list, 3)))
}
