// What calls answer to C, which has no `Result`: a number, which is 0 where the call is accepted and else its
// refusal's, and beside it what an accepted call gives, 0 where it is turned down.
ghost use Rattle.std.specs.Prelude.{◌≡◌};
ghost use Rattle.limits.specs.Refusals.{answer_of, valued_of, value_answer};

use crate::refusal::Refusal;

// The frames of a call, as C has them.
#[repr(C)]
#[derive(Clone, Copy)]
pub struct Answer {
    pub number: u32,
    pub frames: u32,
}

impl From<Result<u32, Refusal>> for Answer {
    ghost from_gives = { λ r a. a ≡ answer_of r };

    #[tactic(auto, unfolding(crate::specs::Refusals::answer_of))]
    fn from(outcome: Result<u32, Refusal>) -> Answer {
        match outcome {
            Ok(frames) => Answer { number: 0, frames },
            Err(refusal) => Answer {
                number: u32::from(refusal),
                frames: 0,
            },
        }
    }
}

// And a float, as C has them.
#[repr(C)]
#[derive(Clone, Copy)]
pub struct Valued {
    pub number: u32,
    pub frames: u32,
    pub value: f32,
}

impl From<Result<(u32, f32), Refusal>> for Valued {
    ghost from_gives = { λ r a. a ≡ valued_of r };

    #[tactic(auto, unfolding(crate::specs::Refusals::valued_of))]
    fn from(outcome: Result<(u32, f32), Refusal>) -> Valued {
        match outcome {
            Ok((frames, value)) => Valued {
                number: 0,
                frames,
                value,
            },
            Err(refusal) => Valued {
                number: u32::from(refusal),
                frames: 0,
                value: 0.0,
            },
        }
    }
}

// The float of a call that has no frames, as C has it.
#[repr(C)]
#[derive(Clone, Copy)]
pub struct Value {
    pub number: u32,
    pub value: f32,
}

impl From<Result<f32, Refusal>> for Value {
    ghost from_gives = { λ r a. a ≡ value_answer r };

    #[tactic(auto, unfolding(crate::specs::Refusals::value_answer))]
    fn from(outcome: Result<f32, Refusal>) -> Value {
        match outcome {
            Ok(value) => Value { number: 0, value },
            Err(refusal) => Value {
                number: u32::from(refusal),
                value: 0.0,
            },
        }
    }
}
