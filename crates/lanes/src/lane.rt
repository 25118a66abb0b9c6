// `impl Lane for f32`: what the machine does not do as the Rust does it. At a tie or a NaN `min` and
// `max` keep `x`.
ghost use Rattle.std.specs.Prelude.{◌≡◌};
ghost use Rattle.lanes.specs.Lane.{min_of, max_of, mul_add, any_of};

// `x × mul + add`, rounded twice.
pub fn mul_add(x: f32, mul: f32, add: f32) -> f32
    ensures { result ≡ mul_add x mul add }
{
    x * mul + add
}

#[tactic(auto, unfolding(crate::specs::Lane::min_of))]
pub fn min(x: f32, other: f32) -> f32
    ensures { result ≡ min_of x other }
{
    if other < x { other } else { x }
}

#[tactic(auto, unfolding(crate::specs::Lane::max_of))]
pub fn max(x: f32, other: f32) -> f32
    ensures { result ≡ max_of x other }
{
    if other > x { other } else { x }
}

pub fn any(x: f32) -> bool
    ensures { result ≡ any_of x }
{
    x != 0.0
}
