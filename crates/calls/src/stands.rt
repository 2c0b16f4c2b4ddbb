// How the records of a test stand to the answer rule (rules 7), one record after the other.
ghost use Rattle.std.specs.Prelude.{◌≡◌, true, false, ◌||◌, ◌≤◌, max, min, length};
ghost use Rattle.walk.specs.Numbers.{lt?, only, choose};
ghost use Rattle.walk.specs.Units.{million};
ghost use Rattle.walk.specs.Strings.{Upper, Lower, is_on};
ghost use Rattle.plan.specs.Plan.{count_limit, plan_refusal};
ghost use Rattle.bucket_test.specs.Turn.{wide_open};
ghost use Rattle.bucket_test.specs.Answers.{answer_of, is_ending};
ghost use Rattle.saved_test.specs.Form.{record_offset};
ghost use Rattle.saved_test.specs.Reading.{record_in, state_in, form_fits};
ghost use Rattle.calls.specs.Inner.{Seen};

use crate::Standing;
use bucket_choice::choosing::Interval;
use bucket_test::Threshold;
use bucket_test::answering::{first_that_fits, narrowed, wide_open};
use bucket_test::drawing::is_ending;
use little::numbers::read_u32;
use plan::Plan;
use saved_test::form::DRAWS_FIELD;
use saved_test::reading::record_in;
use walk::MILLION;

impl Standing {
    // Of no records.
    pub(crate) fn unseen() -> Standing
        ensures { result ≡ record { interval = record { low = 0; high = million }; wide = false } }
    {
        let interval = Interval {
            low: 0,
            high: MILLION,
        };
        Standing {
            interval,
            wide: false,
        }
    }

    // .. and of one more, that of the threshold a.
    pub(crate) fn seen(self, t: Threshold, a: u32) -> Standing
        requires { self.interval.high ≤ million }
        ensures { (result.interval.low ≡ max self.interval.low (only (is_on Upper t.mark) a))
            × (result.interval.high ≡ min self.interval.high (choose (is_on Lower t.mark) a million))
            × (result.wide ≡ (self.wide || wide_open t)) }
    {
        Standing {
            interval: narrowed(self.interval, t.mark, a),
            wide: self.wide || wide_open(t),
        }
    }
}

// Of the records that bytes hold, under a plan with at most ten thresholds.
fn standing_in(p: &Plan, bytes: &[u8]) -> Standing
    requires { (p.now.count ≤ count_limit) × (record_offset p.now.count ≤ length bytes.now) }
    ensures { Seen p.now p.now.count (record_in bytes.now) result }
{
    let count = p.count as usize;
    let mut s = Standing::unseen();
    // By places, since a record is read at its offset.
    for i in 0..count {
        let t = record_in(bytes, i);
        s = s.seen(t, p.thresholds[i]);
    }
    s
}

// Whether the test that bytes hold has ended, by the answer rule.
pub(crate) fn has_ended(p: &Plan, bytes: &[u8]) -> bool
    requires { (plan_refusal p.now ≡ 0) × (form_fits p.now bytes.now ≡ true) }
    ensures { result ≡ is_ending (answer_of p.now (state_in p.now bytes.now)) }
{
    let s = standing_in(p, bytes);
    let spent = read_u32(bytes, DRAWS_FIELD) == p.horizon;
    is_ending(first_that_fits(p, s.interval, s.wide, spent))
}
