// Inputs remade from a seed.
ghost use Rattle.std.specs.Prelude.{◌≡◌, ℕ, ◌+◌, ◌<◌, slice_index};
ghost use Rattle.answers.specs.Random.{next_of, after_of};

use std::array;

// A 32-bit xorshift generator.
#[derive(Clone, Copy)]
pub struct Random {
    pub state: u32,
}

impl Random {
    pub fn new(seed: u32) -> Random
        ensures { result.state ≡ seed }
    {
        Random { state: seed }
    }

    // The next state, which is what is drawn.
    pub fn draw(&mut self) -> u32
        ensures drawn { result ≡ next_of self.old.state }
        ensures kept { self.new.state ≡ result }
    {
        let s = self.state;
        let s = s ^ (s << 13);
        let s = s ^ (s >> 17);
        self.state = s ^ (s << 5);
        self.state
    }

    // One draw after another.
    #[tactic(auto, unfolding(crate::specs::Random::after_of))]
    pub fn draws<const N: usize>(&mut self) -> [u32; N]
        ensures drawn { (k : ℕ) → k < N → slice_index result k ≡ after_of self.old.state (k + 1) }
        ensures kept { self.new.state ≡ after_of self.old.state N }
    {
        let mut draws = [0; N];
        for draw in draws.iter_mut() {
            *draw = self.draw();
        }
        draws
    }

    // Cells, each made of a draw.
    pub fn cells<const N: usize, F: Fn(u32) -> f32>(&mut self, cell: F) -> [f32; N]
        requires { F.IsAlwaysCallable cell }
    {
        array::from_fn(|_| cell(self.draw()))
    }
}
