// A test saved through a power cut (saved 1 to 4): its form, written and read.
#![tactic(auto)]

pub mod form;
pub mod marks;
pub mod reading;
pub mod writing;
