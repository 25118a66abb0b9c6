// The arithmetic that the shapers are written in: lanes.rs's scalar path, f32 by f32, in the Rust's
// names. `sqrt`, `floor`, `abs`, `sign_bit`, `exp2` and `split` are of crate `floats`.
#![tactic(auto)]

pub mod lane;
pub mod maths;
pub mod word;

pub use lane::{any, max, min, mul_add};
pub use maths::{
    ATAN, Numbers, SIN, above, atan, clamp, cos_cycles, exp, ln, ln_cosh, pick, rust_numbers, sign,
    sin_cycles, smoothstep, tan, tanh,
};
pub use word::{add_words, lookup, pick_word, signed, to_word};
