// What drives both slots of calls for at the most four lanes.
use answers::cells::cell;
use answers::random::Random;
use answers::waves::{percent, sample};
use controls::ControlSlices;
use floats::nearest_u32;

// `N` cells each of a modulation and of a source. A call is lent each as a slice of its own, or has none.
#[derive(Clone, Copy)]
pub struct Controls<const N: usize> {
    base0: [f32; 4],
    base1: [f32; 4],
    mod0: [f32; N],
    mod1: [f32; N],
    source0: [f32; N],
    source1: [f32; N],
}

// A number of percent from -64 to 64.
fn modulation(draw: u32) -> f32 {
    nearest_u32(draw >> 8) / 131072.0 - 64.0
}

// A modulation or a source is absent one time of four.
fn lent(draw: u32, cells: &[f32]) -> &[f32] {
    if draw % 4 == 0 { &[] } else { cells }
}

impl<const N: usize> Controls<N> {
    pub fn drawn(seed: u32, random: &mut Random) -> Controls<N> {
        let base = |draw| cell(seed, draw, percent(draw));
        let modulation = |draw| cell(seed, draw, modulation(draw));
        let source = |draw| cell(seed, draw, sample(draw));
        Controls {
            base0: random.cells(base),
            base1: random.cells(base),
            mod0: random.cells(modulation),
            mod1: random.cells(modulation),
            source0: random.cells(source),
            source1: random.cells(source),
        }
    }

    pub fn lent(&self, how: u32) -> ControlSlices<'_> {
        ControlSlices {
            base0: &self.base0,
            base1: &self.base1,
            mod0: lent(how / 0x100, &self.mod0),
            mod1: lent(how / 0x400, &self.mod1),
            source0: lent(how / 0x1000, &self.source0),
            source1: lent(how / 0x4000, &self.source1),
        }
    }
}
