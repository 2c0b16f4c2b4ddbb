// The bucket test: a beginning, draws, and the answer.
#![tactic(auto)]

pub mod answering;
pub mod drawing;
pub mod judging;
pub mod starting;
pub mod turning;

use plan::COUNT_LIMIT;
use walk::{Mark, Walked};

// A threshold's record: its mark, and where its walk stands.
#[derive(Clone, Copy)]
pub struct Threshold {
    pub mark: Mark,
    pub walked: Walked,
}

// The state of a test: the draws taken, n, the ones among them, S, and a record for each threshold.
#[derive(Clone, Copy)]
pub struct State {
    pub n: u32,
    pub ones: u32,
    pub records: [Threshold; COUNT_LIMIT],
}

// What a beginning or a draw answers: a bucket by its number from 1, a refusal by its number.
#[derive(Clone, Copy)]
pub enum Answer {
    Open,
    Decided(u32),
    Crossed,
    Wide,
    Spent,
    Refused(u32),
}

// An answer with the state that a call hands back.
#[derive(Clone, Copy)]
pub struct Drawn {
    pub answer: Answer,
    pub state: State,
}

// The answer to a state, with its interval, in millionths.
#[derive(Clone, Copy)]
pub struct Report {
    pub answer: Answer,
    pub low: u32,
    pub high: u32,
}
