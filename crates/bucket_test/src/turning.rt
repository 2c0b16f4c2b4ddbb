// The turns of the thresholds in a draw (rules 6.2).

ghost use Rattle.std.specs.Prelude.{◌≡◌, ℕ, ◌*◌, ◌≤◌, ◌<◌, length, get_or};
ghost use Rattle.walk.specs.Units.{wide, horizon_limit};
ghost use Rattle.walk.specs.Record.{row_of};
ghost use Rattle.plan.specs.Places.{over_to, join_to};
ghost use Rattle.plan.specs.Plan.{plan_refusal};
ghost use Rattle.bucket_test.specs.Turn.{no_record, marked, turn_record, turn_part, MayTurn, record_turn, part_turn, MayTurnAt};

use crate::Threshold;
use plan::{COUNT_LIMIT, Plan};
use walk::spending::spending_at;
use walk::step::{advance, step};
use walk::{Mark, WIDE, Walked};

// The mark after step n: S at or over the upper boundary, at or under the lower one, or neither. Of any boundaries: S is compared with
// the lower one in 64 bits.
fn mark_of(w: Walked, n: u32, ones: u32) -> Mark
    ensures { result ≡ marked n ones w }
{
    if ones >= w.upper {
        return Mark::Above(n);
    }
    if i64::from(ones) <= i64::from(w.lower) {
        return Mark::AtMost(n);
    }
    Mark::Open
}

// The record of a threshold whose walk stands there after step n.
fn walked_on(w: Walked, n: u32, ones: u32) -> Threshold
    ensures { result ≡ record { mark = marked n ones w; walked = w } }
{
    Threshold {
        mark: mark_of(w, n, ones),
        walked: w,
    }
}

// The turn of one threshold a at draw n, with e = E(n), in the 769 words of its part: an open one walks one step, a settled one and its
// part stay.
fn turn(t: Threshold, part: &mut [u64], a: u32, e: u64, n: u32, ones: u32) -> Threshold
    requires { MayTurn a e t.mark t part.old × (length part.old ≡ wide) }
    ensures { (result ≡ turn_record a e n ones t.mark t part.old)
        × (part.new ≡ turn_part a e n ones t.mark t part.old) }
{
    match t.mark {
        Mark::Open => walked_on(step(part, t.walked, a, e), n, ones),
        Mark::Above(_) | Mark::AtMost(_) => t,
    }
}

// The same in a part of any length with a word more than an open one's live masses: behind its new ones the part is left as it comes.
pub fn turn_front(t: Threshold, part: &mut [u64], a: u32, e: u64, n: u32, ones: u32) -> Threshold
    requires { MayTurn a e t.mark t part.old }
    ensures { (result ≡ turn_record a e n ones t.mark t part.old)
        × (row_of result.walked part.new ≡ row_of result.walked (turn_part a e n ones t.mark t part.old)) }
{
    match t.mark {
        Mark::Open => walked_on(advance(part, t.walked, a, e), n, ones),
        Mark::Above(_) | Mark::AtMost(_) => t,
    }
}

// The turns of the first K thresholds at draw n, each with its own part of the words; the records past K stay. A draw has
// judged the plan, the words and the state. By index: what a `for` over `chunks_exact_mut` wrote is not known after it.
pub(crate) fn turn_all(
    p: &Plan,
    records: [Threshold; COUNT_LIMIT],
    words: &mut [u64],
    n: u32,
    ones: u32,
) -> [Threshold; COUNT_LIMIT]
    requires { (plan_refusal p.now ≡ 0)
        × (length words.old ≡ wide * p.now.count)
        × (n ≤ horizon_limit)
        × ((i : ℕ) → i < p.now.count → MayTurnAt p.now words.old n i (get_or records i no_record)) }
    ensures { (result ≡ over_to p.now.count (record_turn p.now words.old n ones) records)
        × (words.new ≡ join_to p.now.count (λ i. part_turn p.now words.old n ones i (get_or records i no_record))) }
{
    let count = p.count as usize;
    let portion = p.portion_at(n);
    let mut next = records;
    for i in 0..count {
        let e = spending_at(p.allowances[i], portion);
        let at = WIDE * i;
        next[i] = turn(
            next[i],
            &mut words[at..at + WIDE],
            p.thresholds[i],
            e,
            n,
            ones,
        );
    }
    next
}
