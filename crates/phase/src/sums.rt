// What the reads that two slots make of one add up to, with no list between: a run that asks for the
// sum alone keeps slot 1's one or two reads, and slot 0's one or two of each, in registers.
ghost use Rattle.std.specs.Prelude.{◌≡◌, None};
ghost use Rattle.reads.specs.Reads.{start_of};
ghost use Rattle.reads.specs.Branches.{Makes};
ghost use Rattle.phase.specs.Sums.{read_at, products_after, products_of, sum_one, sum_two, map_if, apply_if, shift_if, sum_of, all_products};

use crate::map::map;
use crate::setting::{MapSetting, Tables};
use lanes::add_words;
use reads::{BranchKind, Branches, Cycle, Read};

// The cycle that is read, and by how many words the reads move on, if they do.
#[derive(Clone, Copy)]
pub struct Reading<'a> {
    pub cycle: Cycle<'a>,
    pub offset: Option<u32>,
}

impl<'a> Reading<'a> {
    #[tactic(auto, unfolding(crate::specs::Sums::read_at))]
    fn at(self, word: u32) -> f32
        ensures { result ≡ read_at self.entry.cycle.samples.now self.entry.offset word }
    {
        match self.offset {
            Some(offset) => self.cycle.read(add_words(word, offset)),
            None => self.cycle.read(word),
        }
    }

    // The second read's product, if there is one, added to `first`.
    #[tactic(auto, unfolding(crate::specs::Sums::products_after), using(floats::specs::Steps::by_taken, floats::specs::Steps::by_left))]
    fn products_after(self, b: Branches, first: f32) -> f32
        ensures { result ≡ products_after self.entry.cycle.samples.now self.entry.offset b first }
    {
        match b.kind {
            BranchKind::Both => first + b.second.gain * self.at(b.second.word),
            _ => first,
        }
    }

    // The products of a map's reads. Inlined at every call, as the two sums below: left functions, they are handed
    // what is read in memory, and a plain read of a picture takes a third longer.
    #[inline(always)]
    #[tactic(auto, unfolding(crate::specs::Sums::products_of))]
    fn products(self, b: Branches) -> f32
        ensures { result ≡ products_of self.entry.cycle.samples.now self.entry.offset b }
    {
        self.products_after(b, b.first.gain * self.at(b.first.word))
    }

    // The reads of one map; the gains don't count if the read that it was given is `plain` and it makes
    // one with no gain of its own.
    #[inline(always)]
    #[tactic(auto, unfolding(crate::specs::Sums::sum_one), using(floats::specs::Steps::by_taken, floats::specs::Steps::by_left))]
    fn sum_one(self, plain: bool, b: Branches) -> f32
        ensures { result ≡ sum_one self.entry.cycle.samples.now self.entry.offset plain b }
    {
        if plain && b.kind == BranchKind::One {
            return self.at(b.first.word);
        }
        self.products(b)
    }

    // The reads of two maps, those of `a` first.
    #[inline(always)]
    #[tactic(auto, unfolding(crate::specs::Sums::sum_two))]
    fn sum_two(self, a: Branches, b: Branches) -> f32
        ensures { result ≡ sum_two self.entry.cycle.samples.now self.entry.offset a b }
    {
        let sum = self.products(a);
        self.products_after(b, sum + b.first.gain * self.at(b.first.word))
    }
}

// What a slot makes of the one read at `word`, if it has a map.
#[tactic(auto, unfolding(crate::specs::Sums::map_if))]
fn map_if(tables: Tables<'_>, setting: Option<MapSetting>, word: u32) -> Branches
    ensures { Makes result (map_if tables.entry.numbers.sin tables.entry.numbers.atan tables.entry.curve.values.now setting word) }
{
    let read = Read { word, gain: 1.0 };
    match setting {
        Some(setting) => map(tables, setting, read),
        None => Branches::one(read),
    }
}

// The sum of the reads that slot 1's map and then slot 0's, where they have one, make of the read at `word`.
// With `EVERY` each read counts with its gain, also one whose gain is none of a map's: for a picture. The
// compiler puts each of the two into the one loop that calls it.
pub fn mapped_sum<const EVERY: bool>(
    tables: Tables<'_>,
    reading: Reading<'_>,
    map0: Option<MapSetting>,
    map1: Option<MapSetting>,
    word: u32,
) -> f32
    ensures { result ≡ sum_of EVERY reading.entry.cycle.samples.now (shift_if reading.entry.offset
        (apply_if tables.entry.numbers.sin tables.entry.numbers.atan tables.entry.curve.values.now map0
        (apply_if tables.entry.numbers.sin tables.entry.numbers.atan tables.entry.curve.values.now map1 (start_of word)))) }
{
    let reads = map_if(tables, map1, word);
    let Some(setting) = map0 else {
        return reading.sum_one(!EVERY, reads);
    };
    let first = map(tables, setting, reads.first);
    match reads.kind {
        BranchKind::Both => {
            let second = map(tables, setting, reads.second);
            reading.sum_two(first, second)
        }
        BranchKind::Weighted => reading.products(first),
        BranchKind::One => reading.sum_one(!EVERY, first),
    }
}
