// A beginning, a draw, and the answer to a state (rules 6, 7.3, 8.2).

ghost use Rattle.std.specs.Prelude.{◌≡◌, ◌*◌};
ghost use Rattle.walk.specs.Units.{wide};
ghost use Rattle.plan.specs.Places.{eq?};
ghost use Rattle.refusals.specs.Refusals.{number_of, refusal_in};
ghost use Rattle.bucket_test.specs.Answers.{is_ending};
ghost use Rattle.bucket_test.specs.Draw.{drawn_of, begin_refusal, begun, draw_refusal, next_state, next_words, drawn, report};

use crate::answering::{answer_of, interval_of};
use crate::judging::state_sound;
use crate::starting::{no_walked, start_words, ten_of};
use crate::turning::turn_all;
use crate::{Answer, Drawn, Report, State};
use plan::Plan;
use refusals::{Refusal, ensure};
use walk::WIDE;
use walk::starting::start_walked;

// A refusal with a state.
fn refused(refusal: Refusal, state: State) -> Drawn
    ensures { result ≡ record { answer = Answer.Refused (number_of refusal); state = state } }
{
    Drawn {
        answer: Answer::Refused(refusal.number()),
        state,
    }
}

// Refusal 8, of any numbers: so many words for so many thresholds.
fn words_fit(count: u32, len: usize) -> bool
    ensures { result ≡ eq? len (wide * count) }
{
    len == WIDE * count as usize
}

// Whether a test may begin, by plan and 8 in this order (rules 8.2). Any plan and any words may be handed in.
fn judge_beginning(p: &Plan, words: &[u64]) -> Result<(), Refusal>
    ensures { refusal_in result ≡ begin_refusal p.now words.now }
{
    p.judge()?;
    ensure(words_fit(p.count, words.len()), Refusal::Words)
}

// Beginning: every part is written, unless the plan or the number of words is refused (rules 6.1). Any plan and any
// words may be handed in.
pub fn begin(p: &Plan, words: &mut [u64]) -> Drawn
    ensures { (result ≡ drawn_of (begun p.now words.old)) × (words.new ≡ (begun p.now words.old).words) }
{
    if let Err(refusal) = judge_beginning(p, words) {
        return refused(refusal, ten_of(no_walked()));
    }
    start_words(words, p.count as usize);
    let state = ten_of(start_walked());
    Drawn {
        answer: answer_of(p, &state),
        state,
    }
}

pub fn is_ending(a: Answer) -> bool
    ensures { result ≡ is_ending a }
{
    matches!(
        a,
        Answer::Decided(_) | Answer::Crossed | Answer::Wide | Answer::Spent
    )
}

// By plan, 8, 9, 10 and 11 in this order (rules 8.2). Any plan, state, words and draw may be handed in.
fn judge_draw(p: &Plan, s: &State, words: &[u64], d: u8) -> Result<(), Refusal>
    ensures { refusal_in result ≡ draw_refusal p.now s.now words.now d }
{
    judge_beginning(p, words)?;
    ensure(d <= 1, Refusal::Draw)?;
    ensure(!is_ending(answer_of(p, s)), Refusal::Ended)?;
    ensure(state_sound(p, s, words), Refusal::Spoiled)
}

// n and S rise, and each threshold has its turn, where nothing refuses the draw.
fn take_one(p: &Plan, s: &State, words: &mut [u64], d: u8) -> State
    requires { draw_refusal p.now s.now words.old d ≡ 0 }
    ensures { (result ≡ next_state p.now s.now words.old d) × (words.new ≡ next_words p.now s.now words.old d) }
{
    let n = s.n + 1;
    let ones = s.ones + u32::from(d);
    let records = turn_all(p, s.records, words, n, ones);
    State { n, ones, records }
}

// A draw, unless it is refused; a refusal hands back the state it was given.
pub fn draw(p: &Plan, s: State, words: &mut [u64], d: u8) -> Drawn
    ensures { (result ≡ drawn_of (drawn p.now s words.old d)) × (words.new ≡ (drawn p.now s words.old d).words) }
{
    if let Err(refusal) = judge_draw(p, &s, words, d) {
        return refused(refusal, s);
    }
    let state = take_one(p, &s, words, d);
    Drawn {
        answer: answer_of(p, &state),
        state,
    }
}

// The answer to a state as it stands, with its interval. Any plan and any state may be handed in.
pub fn report_on(p: &Plan, s: &State) -> Report
    ensures { result ≡ report p.now s.now }
{
    if let Err(refusal) = p.judge() {
        return Report {
            answer: Answer::Refused(refusal.number()),
            low: 0,
            high: 0,
        };
    }
    let v = interval_of(p, s);
    Report {
        answer: answer_of(p, s),
        low: v.low,
        high: v.high,
    }
}
