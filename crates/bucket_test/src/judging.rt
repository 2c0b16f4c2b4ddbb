// Whether a state that was handed in may take a draw (rules 8.4).

ghost use Rattle.std.specs.Prelude.{◌≡◌, ◌*◌, ◌≤◌, length};
ghost use Rattle.walk.specs.Units.{wide, horizon_limit};
ghost use Rattle.plan.specs.Places.{all_to};
ghost use Rattle.plan.specs.Plan.{plan_refusal};
ghost use Rattle.bucket_test.specs.Turn.{record_at, numbers_sound, record_sound, record_sound_at};
ghost use Rattle.bucket_test.specs.Draw.{state_sound};

use crate::{State, Threshold};
use plan::Plan;
use plan::rules::within;
use walk::soundness::{boundaries_sound, rounded_fits, words_sound};
use walk::spending::spending_at;
use walk::{Mark, WIDE};

// Of any record: it passes refusal 11 but for its words, after n draws with so many ones, with e = E(n).
pub fn numbers_sound(t: Threshold, e: u64, n: u32, ones: u32) -> bool
    ensures { result ≡ numbers_sound e n ones t.mark t }
{
    rounded_fits(t.walked, n)
        && match t.mark {
            Mark::Open => boundaries_sound(t.walked, n, ones, e),
            Mark::Above(u) | Mark::AtMost(u) => within(u, 1, n),
        }
}

// .. and with any words.
fn record_sound(t: Threshold, part: &[u64], e: u64, n: u32, ones: u32) -> bool
    ensures { result ≡ record_sound e n ones t.mark t part.now }
{
    numbers_sound(t, e, n, ones)
        && match t.mark {
            Mark::Open => words_sound(part, t.walked),
            Mark::Above(_) | Mark::AtMost(_) => true,
        }
}

// Whether each of the first K records passes refusal 11; n is judged before.
fn records_sound(p: &Plan, s: &State, words: &[u64]) -> bool
    requires { (plan_refusal p.now ≡ 0) × (length words.now ≡ wide * p.now.count) × (s.now.n ≤ horizon_limit) }
    ensures { result ≡ all_to p.now.count (λ i. record_sound_at p.now words.now s.now.n s.now.ones i (record_at s.now i)) }
{
    let count = p.count as usize;
    let portion = p.portion_at(s.n);
    let allowed = s.records[..count].iter().zip(&p.allowances[..count]);
    for ((&record, &allowance), part) in allowed.zip(words.chunks_exact(WIDE)) {
        if !record_sound(record, part, spending_at(allowance, portion), s.n, s.ones) {
            return false;
        }
    }
    true
}

// Refusal 11, of any state: n over N or S over n, or a record of the first K. A draw has judged plan and words.
pub fn state_sound(p: &Plan, s: &State, words: &[u64]) -> bool
    requires { (plan_refusal p.now ≡ 0) × (length words.now ≡ wide * p.now.count) }
    ensures { result ≡ state_sound p.now s.now words.now }
{
    s.n <= p.horizon && s.ones <= s.n && records_sound(p, s, words)
}
