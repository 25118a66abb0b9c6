// What the facts of a mode are made of, in the Rust's names.

// What an inter-oscillator mode reads at audio rate.
#[derive(Clone, Copy, Debug, PartialEq, Eq)]
pub enum Source {
    Osc1 = 1,
    Osc2,
    Noise,
    Sub,
    Filter1,
    Filter2,
    Own,
}

#[derive(Clone, Copy, Debug, PartialEq, Eq)]
pub enum FmType {
    ThruZero = 1,
    Exponential,
    Linear,
}

// What a mode does with its source.
#[derive(Clone, Copy, Debug, PartialEq, Eq)]
pub enum Modulated {
    Fm(FmType),
    PhaseDistortion,
    Am,
    Ring,
}

// Where in the oscillator a mode acts.
#[derive(Clone, Copy, Debug, PartialEq, Eq)]
pub enum Stage {
    Off,
    Phase,
    Wave,
}
