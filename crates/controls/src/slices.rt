// What drives both slots, as it is lent.
ghost use Rattle.std.specs.Prelude.{◌≡◌};
ghost use Rattle.controls.specs.Controls.{control_lengths};
ghost use Rattle.controls.specs.Slices.{control_lists};

use limits::ControlLengths;

// Base, modulation and source of either slot: a number for each lane, and two rows for each host frame. An
// empty modulation or source is absent. Six fields and not two slots of three: C lends six, and the promises name six.
#[derive(Clone, Copy)]
pub struct ControlSlices<'a> {
    pub base0: &'a [f32],
    pub base1: &'a [f32],
    pub mod0: &'a [f32],
    pub mod1: &'a [f32],
    pub source0: &'a [f32],
    pub source1: &'a [f32],
}

impl ControlSlices<'_> {
    pub fn lengths(&self) -> ControlLengths
        ensures { result ≡ control_lengths (control_lists self.now) }
    {
        ControlLengths {
            base0: self.base0.len(),
            base1: self.base1.len(),
            mod0: self.mod0.len(),
            mod1: self.mod1.len(),
            source0: self.source0.len(),
            source1: self.source1.len(),
        }
    }
}
