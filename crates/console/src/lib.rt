// The program but for its write (rules 9).
#![tactic(auto)]

mod ascii;
mod feeding;
mod input;
pub mod line;
pub mod program;
mod reading;
mod running;
