// Interval and answer of a state (rules 7).

ghost use Rattle.std.specs.Prelude.{◌≡◌, ◌≤◌, max, min};
ghost use Rattle.walk.specs.Numbers.{lt?, only, choose};
ghost use Rattle.walk.specs.Units.{million};
ghost use Rattle.walk.specs.Strings.{Upper, Lower, is_on};
ghost use Rattle.plan.specs.Plan.{count_limit, bucket_limit};
ghost use Rattle.bucket_choice.specs.Choice.{chosen_bucket};
ghost use Rattle.bucket_test.specs.Turn.{wide_open};
ghost use Rattle.bucket_test.specs.Answers.{low_of, high_of, any_wide, first_that_fits, answer_of};

use crate::{Answer, State, Threshold};
use bucket_choice::choosing::{Interval, chosen_bucket};
use plan::Plan;
use walk::soundness::is_wide;
use walk::{MILLION, Mark};

// A threshold t with the mark m narrows the interval.
pub fn narrowed(v: Interval, m: Mark, t: u32) -> Interval
    requires { v.high ≤ million }
    ensures { (result.low ≡ max v.low (only (is_on Upper m) t)) × (result.high ≡ min v.high (choose (is_on Lower m) t million)) }
{
    match m {
        Mark::Open => v,
        Mark::Above(_) => Interval {
            low: v.low.max(t),
            high: v.high,
        },
        Mark::AtMost(_) => Interval {
            low: v.low,
            high: v.high.min(t),
        },
    }
}

// The interval of a state. An accepted plan has at most ten thresholds.
pub(crate) fn interval_of(p: &Plan, s: &State) -> Interval
    requires { p.now.count ≤ count_limit }
    ensures { (result.low ≡ low_of p.now s.now) × (result.high ≡ high_of p.now s.now) }
{
    let count = p.count as usize;
    let mut v = Interval {
        low: 0,
        high: MILLION,
    };
    for (record, &threshold) in s.records[..count].iter().zip(&p.thresholds[..count]) {
        v = narrowed(v, record.mark, threshold);
    }
    v
}

pub fn wide_open(t: Threshold) -> bool
    ensures { result ≡ wide_open t }
{
    matches!(t.mark, Mark::Open) && is_wide(t.walked)
}

fn any_wide(p: &Plan, s: &State) -> bool
    requires { p.now.count ≤ count_limit }
    ensures { result ≡ any_wide p.now s.now }
{
    s.records[..p.count as usize]
        .iter()
        .any(|&record| wide_open(record))
}

// The first answer that fits an interval under a plan with at most sixteen buckets.
pub fn first_that_fits(p: &Plan, interval: Interval, wide: bool, spent: bool) -> Answer
    requires { p.now.buckets ≤ bucket_limit }
    ensures { result ≡ first_that_fits (lt? interval.high interval.low) (lt? (chosen_bucket p.now interval.low interval.high) p.now.buckets)
        (chosen_bucket p.now interval.low interval.high) wide spent }
{
    if interval.low > interval.high {
        return Answer::Crossed;
    }
    if let Some(place) = chosen_bucket(p, interval) {
        return Answer::Decided(place + 1);
    }
    if wide {
        return Answer::Wide;
    }
    if spent {
        return Answer::Spent;
    }
    Answer::Open
}

// The answer to a state, where the plan is accepted.
pub fn answer_of(p: &Plan, s: &State) -> Answer
    requires { (p.now.count ≤ count_limit) × (p.now.buckets ≤ bucket_limit) }
    ensures { result ≡ answer_of p.now s.now }
{
    first_that_fits(p, interval_of(p, s), any_wide(p, s), s.n == p.horizon)
}
