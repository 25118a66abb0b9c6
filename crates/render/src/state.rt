// The settings of a block run, and what a render carries from frame to frame.
ghost use Rattle.std.specs.Prelude.{◌≡◌, ◌<◌};
ghost use Rattle.render.specs.Promises.{Limits};

use halfband::Designs;
use shaper::{Range, Settings};
use voice::WaveState;
use wave::Svf;

// All numbers of a block run that belong to no lane, save its range and its count of active lanes:
// `rate` is the host's, in whole hertz.
#[derive(Clone, Copy)]
pub struct BlockSettings {
    pub shaper: Settings,
    pub rate: u32,
    pub designs: Designs,
}

// A lane's share of a range of a block, within the limits. The designs alone are lent: a copy of them for each lane took
// a quarter of a call's time where ranges are short and lanes are many.
#[derive(Clone, Copy)]
pub struct LaneRange<'a> {
    pub shaper: Settings,
    pub rate: u32,
    pub designs: &'a Designs,
    pub range: Range,
    pub lane: usize,
    ghost limits: { Limits (record { shaper = shaper; rate = rate; designs = designs.now }) range },
    ghost inside: { lane < shaper.lanes },
}

// A lane's filter pairs, FM carry and `last`.
#[derive(Clone, Copy)]
pub struct Voice {
    pub pairs0: Svf,
    pub pairs1: Svf,
    pub fm0: f32,
    pub fm1: f32,
    pub last: f32,
}

impl Voice {
    // What of it is the wave stage's.
    pub fn wave_state(self) -> WaveState
        ensures { result ≡ (record { pairs0 = self.pairs0; pairs1 = self.pairs1; last = self.last }) }
    {
        WaveState {
            pairs0: self.pairs0,
            pairs1: self.pairs1,
            last: self.last,
        }
    }
}

// A rendered frame's sample, and the state after it.
#[derive(Clone, Copy)]
pub struct Stepped {
    pub sample: f32,
    pub voice: Voice,
}

// What drives a slot at a host frame: its amount, and its power at that amount.
#[derive(Clone, Copy)]
pub struct Drive {
    pub amount: f32,
    pub power: f32,
}

// What holds for all rendered frames of a host frame: what drives the slots, and the prepared slope.
#[derive(Clone, Copy)]
pub struct HostFrame {
    pub drive0: Drive,
    pub drive1: Drive,
    pub inner: f32,
}
