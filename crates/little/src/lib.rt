// Little-endian numbers in bytes, one by one and in tables.
#![tactic(auto)]

pub mod numbers;
pub mod tables;
