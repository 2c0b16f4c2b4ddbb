// The bucket that is named for an interval.
#![tactic(auto)]

pub mod choosing;
