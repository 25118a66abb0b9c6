// The search for an amount. Every amount is tried in turn: the folds turn back, and Pedal and Tape do in
// their last bits, so that halving would miss some.
ghost use Rattle.std.specs.Prelude.{◌≡◌, ◌+◌, ◌≤◌};
ghost use Rattle.levels.specs.Levels.{amounts, amount_of, within_of, within_at};
ghost use Rattle.levels.specs.Parts.{part_length, least_of, rectified_at, curved_at};

use controls::percent;
use files::card_amount;
use floats::abs;
use lanes::Numbers;
use modes::numbers::RECTIFY;
use std::array;
use wave::{blend_rectified, curve_all, drive};

// How many amounts there are: 0 to 10,000 hundredths of a percent.
pub const AMOUNTS: u32 = 10001;

// The same in 16 bits: of so small a number the compiler knows that its upper half is 0, and makes it a float in less
// time, a tenth of a search's.
const COUNT: u16 = AMOUNTS as u16;

// How many of them are tried at a time: so many fit in a small array, and few are tried in vain past the
// one that serves.
const PART: usize = 64;

// An amount serves if the mode bends `sample` at it to within `tolerance` of `wanted`.
#[derive(Clone, Copy)]
pub struct Search {
    pub numbers: Numbers,
    pub mode: u32,
    pub sample: f32,
    pub wanted: f32,
    pub tolerance: f32,
}

#[tactic(auto, unfolding(crate::specs::Levels::amount_of), using(floats::specs::Steps::steps))]
fn amount_of(hundredths: u16) -> f32
    ensures { result ≡ amount_of hundredths }
{
    percent(card_amount(u32::from(hundredths)))
}

impl Search {
    // Just as far as the tolerance is within, and NaN never is.
    #[tactic(auto, unfolding(crate::specs::Levels::within_of), using(floats::specs::Steps::steps))]
    fn is_within(self, out: f32) -> bool
        ensures { result ≡ within_of self.wanted self.tolerance out }
    {
        abs(out - self.wanted) <= self.tolerance
    }

    // The least amount that serves of Rectify, if one does.
    fn least_rectified(self) -> Option<u16>
        ensures { result ≡ least_of amounts (rectified_at self.sample self.wanted self.tolerance) }
    {
        (0..COUNT).find(|hundredths| {
            self.is_within(blend_rectified(amount_of(*hundredths), self.sample))
        })
    }

    // The first of the amounts from `from` on that serves, counted from there.
    fn part_within(self, from: u16) -> Option<usize>
        requires { from ≤ amounts }
        ensures { result ≡ least_of part_length (λ i. curved_at self.numbers.sin self.mode self.sample self.wanted self.tolerance (from + i)) }
    {
        let mut outs: [f32; PART] = array::from_fn(|i| drive(
            self.mode,
            amount_of(from + i as u16),
        ));
        curve_all(self.numbers, self.mode, self.sample, &mut outs);
        outs.iter().position(|out| self.is_within(*out))
    }

    // The least amount that serves of a mode that is driven, if one does.
    fn least_curved(self) -> Option<u16>
        ensures { result ≡ least_of amounts (curved_at self.numbers.sin self.mode self.sample self.wanted self.tolerance) }
    {
        // Not `find_map`: that each number of `step_by` is an amount, which the closure asks, was not proved.
        for from in (0..COUNT).step_by(PART) {
            if let Some(at) = self.part_within(from) {
                // The last part goes past the most.
                let found = from + at as u16;
                return if found < COUNT { Some(found) } else { None };
            }
        }
        None
    }

    // The least amount that serves, if one does.
    pub fn least(self) -> Option<u16>
        ensures { result ≡ least_of amounts (within_at self.numbers.sin self.mode self.sample self.wanted self.tolerance) }
    {
        match self.mode {
            RECTIFY => self.least_rectified(),
            _ => self.least_curved(),
        }
    }
}
