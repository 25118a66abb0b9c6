// What drives a slot of a lane at a host frame.
ghost use Rattle.std.specs.Prelude.{◌≡◌, ◌+◌, ◌*◌, ◌<◌, ◌≤◌, length, get_or};
ghost use Rattle.std.specs.Float.{nan};
ghost use Rattle.grid.specs.Cells.{column};
ghost use Rattle.controls.specs.Controls.{lent_of, amount_at, next_row, between_rows, source_at, heard_at, control_at};
ghost use Rattle.limits.specs.Lengths.{Holds};

use crate::percent;
use floats::nearest_u32;
use grid::Lane;
use lanes::mul_add;
use voice::{Control, is_own};

// A lane at a host frame of a block of `frames`: a modulation or source that is given has a row for each of
// these, whatever its length. Each method asks that of the slice that it reads: a struct of the slice with this fact
// would be made at each call, for one read.
#[derive(Clone, Copy)]
pub struct LaneFrame {
    pub lane: Lane,
    pub frames: usize,
    pub host: usize,
    ghost block: { frames ≤ 4096 },
    ghost row: { host < frames },
}

impl LaneFrame {
    // A slot's amount, 0 to 1.
    #[tactic(auto, unfolding(crate::specs::Controls::amount_at), using(crate::proofs::LentLaws::lent_none, crate::proofs::LentLaws::lent_some, crate::proofs::LentLaws::row_read))]
    pub fn amount(self, base: f32, modulation: &[f32]) -> f32
        requires { Holds (self.frames * self.lane.lanes) (length modulation.now) }
        ensures { result ≡ amount_at base (lent_of self.lane.lanes self.lane.index self.frames modulation.now) self.host }
    {
        if modulation.is_empty() {
            return percent(base);
        }
        percent(base + modulation[self.lane.place(self.host)])
    }

    // The row after its own; the block's last row repeats.
    fn next_row(self) -> usize
        ensures value { result ≡ next_row self.frames self.host }
        ensures inside { result < self.frames }
    {
        if self.host + 1 < self.frames {
            self.host + 1
        } else {
            self.frames - 1
        }
    }

    // A source between its row and the next.
    #[tactic(auto, unfolding(crate::specs::Controls::between_rows), using(floats::specs::Steps::step, crate::proofs::LentLaws::row_read, crate::proofs::LentLaws::row_held, crate::proofs::LentLaws::next_in))]
    fn between_rows(self, source: &[f32], factor: u32, sub: u32) -> f32
        requires { self.frames * self.lane.lanes ≤ length source.now }
        ensures { result ≡ between_rows factor self.frames (column nan self.lane.lanes self.lane.index self.frames source.now) self.host sub }
    {
        let toward = nearest_u32(sub) / nearest_u32(factor);
        let here = source[self.lane.place(self.host)];
        let next = source[self.lane.place(self.next_row())];
        mul_add(next - here, toward, here)
    }

    // A source at rendered frame `sub` of the `factor` that a host frame has.
    #[tactic(auto, unfolding(crate::specs::Controls::source_at), using(floats::specs::Steps::taken, floats::specs::Steps::left, crate::proofs::LentLaws::row_read))]
    pub fn source(self, source: &[f32], factor: u32, sub: u32) -> f32
        requires { self.frames * self.lane.lanes ≤ length source.now }
        ensures { result ≡ source_at factor self.frames (column nan self.lane.lanes self.lane.index self.frames source.now) self.host sub }
    {
        if factor == 1 {
            return source[self.lane.place(self.host)];
        }
        self.between_rows(source, factor, sub)
    }

    // What a slot hears, if it has a source.
    #[tactic(auto, unfolding(crate::specs::Controls::heard_at), using(floats::specs::Steps::taken, floats::specs::Steps::left, crate::proofs::LentLaws::lent_none, crate::proofs::LentLaws::lent_some))]
    pub fn heard(self, mode: u32, source: &[f32], last: f32, factor: u32, sub: u32) -> Option<f32>
        requires { Holds (self.frames * self.lane.lanes) (length source.now) }
        ensures { result ≡ heard_at mode factor self.frames (lent_of self.lane.lanes self.lane.index self.frames source.now) last self.host sub }
    {
        if source.is_empty() {
            return None;
        }
        if is_own(mode) {
            return Some(last);
        }
        Some(self.source(source, factor, sub))
    }

    // A slot's amount and what it hears.
    #[tactic(auto, unfolding(crate::specs::Controls::control_at))]
    pub fn control(
        self,
        mode: u32,
        base: &[f32],
        modulation: &[f32],
        source: &[f32],
        last: f32,
        factor: u32,
        sub: u32,
    ) -> Control
        requires based { self.lane.lanes ≤ length base.now }
        requires modulated { Holds (self.frames * self.lane.lanes) (length modulation.now) }
        requires sourced { Holds (self.frames * self.lane.lanes) (length source.now) }
        ensures { result ≡ control_at mode factor self.frames (get_or base.now self.lane.index nan)
            (lent_of self.lane.lanes self.lane.index self.frames modulation.now)
            (lent_of self.lane.lanes self.lane.index self.frames source.now) last self.host sub }
    {
        Control {
            amount: self.amount(base[self.lane.index], modulation),
            source: self.heard(mode, source, last, factor, sub),
        }
    }
}
