// Text for the programs: lines read byte by byte, and the decimal numbers on a line.
#![tactic(auto)]

pub mod decimal;
pub mod lines;

pub use decimal::seven_of;
pub use lines::Line;
