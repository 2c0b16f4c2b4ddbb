// A p-value by counting, after Besag and Clifford (rules 13): a run takes draws until its stop count of ones, or its last draw.
#![tactic(auto)]

pub mod drawing;
mod judging;

// The largest size of a run.
pub const SIZE_LIMIT: u32 = 50000;

// A run: its stop count h, its size n, the draws taken, l, and the ones among them, g.
#[derive(Clone, Copy, Default)]
pub struct Run {
    pub stop: u32,
    pub size: u32,
    pub taken: u32,
    pub ones: u32,
}

// What a beginning or a draw answers: open; the p-value that ended the run, numerator and denominator, not reduced; a refusal by its number.
#[derive(Clone, Copy)]
pub enum Answer {
    Open,
    Ended(u32, u32),
    Refused(u32),
}

// An answer with the run that a call hands back.
#[derive(Clone, Copy)]
pub struct Drawn {
    pub answer: Answer,
    pub run: Run,
}
