// A picture through a filter: its state over the points, pass by pass.
ghost use Rattle.std.specs.Prelude.{◌≡◌, length};
ghost use Rattle.std.specs.Float.{nan};
ghost use Rattle.wave.specs.Filter.{filter_with};
ghost use Rattle.preview.specs.Filtering.{pass_to, settled_to, drawn_at, silent};
ghost use Rattle.grid.specs.Runs.{Ran};

use wave::{Svf, filter_with};

// How many cycles a filter is given to settle.
const PASSES: u32 = 15;

// A filter that stays over all points: `g` is its cutoff's tangent, `k` the damping.
#[derive(Clone, Copy)]
pub struct Filter {
    pub mode: u32,
    pub g: f32,
    pub k: f32,
}

impl Filter {
    // The state after a pass over the picture.
    #[tactic(auto, using(crate::proofs::RunLaws::pass_none, crate::proofs::RunLaws::pass_more))]
    fn pass(self, mut state: Svf, picture: &[f32]) -> Svf
        ensures { result ≡ pass_to (filter_with self.mode self.g self.k) picture.now state (length picture.now) }
    {
        for x in picture {
            state = filter_with(self.mode, self.g, self.k, *x, state).state;
        }
        state
    }

    // After fifteen of them, from silence.
    #[tactic(auto, using(crate::proofs::RunLaws::settled_none, crate::proofs::RunLaws::settled_more))]
    pub fn settle(self, picture: &[f32]) -> Svf
        ensures { result ≡ settled_to (filter_with self.mode self.g self.k) picture.now silent 15 }
    {
        let mut state = Svf { ic1: 0.0, ic2: 0.0 };
        // So many times the same: nothing is counted through.
        for _ in 0..PASSES {
            state = self.pass(state, picture);
        }
        state
    }

    // The pass that is drawn, in place.
    #[tactic(auto, using(crate::proofs::RunLaws::pass_none))]
    pub fn draw_pass(self, mut state: Svf, picture: &mut [f32])
        ensures { Ran nan (drawn_at (filter_with self.mode self.g self.k) picture.old state) picture.old picture.new (length picture.old) }
    {
        for x in picture.iter_mut() {
            let out = filter_with(self.mode, self.g, self.k, *x, state);
            *x = out.y;
            state = out.state;
        }
    }
}
