// The lanes that a block run or a lane's gives their share.
ghost use Rattle.std.specs.Prelude.{◌≡◌, ◌<◌};
ghost use Rattle.std.specs.Option.{ForSome};
ghost use Rattle.lane_run.specs.Either.{interval_of};

// From ≤ lane < to.
#[derive(Clone, Copy)]
pub struct Interval {
    pub from: u32,
    pub to: u32,
}

// The one lane, or the active ones.
pub fn interval_of(lane: Option<u32>, active: u32) -> Interval
    requires { ForSome lane (λ one. one < active) }
    ensures { result ≡ interval_of lane active }
{
    match lane {
        Some(lane) => Interval {
            from: lane,
            to: lane + 1,
        },
        None => Interval {
            from: 0,
            to: active,
        },
    }
}
