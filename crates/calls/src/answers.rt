// The numbers of answers and refusals (saved 6).
ghost use Rattle.std.specs.Prelude.{◌≡◌, ◌≤◌};
ghost use Rattle.calls.specs.Calls.{answer_number};
ghost use Rattle.calls.specs.Inner.{number_in};

use bucket_test::Answer;
use refusals::Refusal;

const OPEN: u32 = 100;

const CROSSED: u32 = 120;

const WIDE: u32 = 130;

const SPENT: u32 = 140;

// Of an answer to a test under an accepted plan, whose bucket is one of 16.
fn answer_number(a: Answer) -> u32
    requires { answer_number a ≤ 140 }
    ensures { result ≡ answer_number a }
{
    match a {
        Answer::Open => OPEN,
        Answer::Decided(bucket) => OPEN + bucket,
        Answer::Crossed => CROSSED,
        Answer::Wide => WIDE,
        Answer::Spent => SPENT,
        Answer::Refused(number) => number,
    }
}

// What a call returns.
pub(crate) fn returned(outcome: Result<Answer, Refusal>) -> u32
    requires { number_in outcome ≤ 140 }
    ensures { result ≡ number_in outcome }
{
    match outcome {
        Ok(answer) => answer_number(answer),
        Err(refusal) => refusal.number(),
    }
}
