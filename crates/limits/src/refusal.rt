// Why a call is turned down.
ghost use Rattle.std.specs.Prelude.{◌≡◌};
ghost use Rattle.limits.specs.Refusals.{line_of};

// The lines of the table, each by its number. A patch file's and a search's come after them.
#[derive(Clone, Copy, Debug, PartialEq, Eq)]
pub enum Refusal {
    Mode = 1,
    Factor,
    Lanes,
    Frames,
    Rate,
    Design,
    ShortRead,
    ShortWrite,
    Length,
    Kind,
    Field,
    NoAmount,
}

impl From<Refusal> for u32 {
    ghost from_gives = { λ r n. n ≡ line_of r };

    #[tactic(auto, unfolding(crate::specs::Refusals::line_of))]
    fn from(refusal: Refusal) -> u32 {
        refusal as u32
    }
}
