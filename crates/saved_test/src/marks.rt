// Marks by their codes, and how many masses a threshold has by its mark (saved 1, 3).
ghost use Rattle.std.specs.Prelude.{◌≡◌, ◌*◌, ◌^◌, ◌≤◌, ◌<◌, length, get_or};
ghost use Rattle.plan.specs.Plan.{count_limit};
ghost use Rattle.bucket_test.specs.Turn.{no_record};
ghost use Rattle.saved_test.specs.Form.{counts_between, live_count, masses_to, mark_code, mark_step};
ghost use Rattle.saved_test.specs.Reading.{mark_of, mark_known, count_fits};

use bucket_test::Threshold;
use walk::{Mark, WIDE};

// The codes.
const OPEN: u32 = 0;

const ABOVE: u32 = 1;

const AT_MOST: u32 = 2;

// The code of a mark, and its step, 0 where it is open.
pub fn code_of(mark: Mark) -> (u32, u32)
    ensures { (result.0 ≡ mark_code mark) × (result.1 ≡ mark_step mark) }
{
    match mark {
        Mark::Open => (OPEN, 0),
        Mark::Above(step) => (ABOVE, step),
        Mark::AtMost(step) => (AT_MOST, step),
    }
}

// A mark by its code and its step.
pub(crate) fn mark_of(code: u32, step: u32) -> Mark
    ensures { result ≡ mark_of code step }
{
    match code {
        OPEN => Mark::Open,
        ABOVE => Mark::Above(step),
        _ => Mark::AtMost(step),
    }
}

// One of the three codes, and step 0 where it is open.
pub(crate) fn mark_known(code: u32, step: u32) -> bool
    ensures { result ≡ mark_known code step }
{
    match code {
        OPEN => step == 0,
        ABOVE | AT_MOST => true,
        _ => false,
    }
}

// Upper - lower - 1, of any two boundaries; 0 where there is no count between them.
fn counts_between(lower: i32, upper: u32) -> usize
    ensures { (result ≡ counts_between lower upper) × (result < 2 ^ 33) }
{
    (i64::from(upper) - i64::from(lower) - 1).max(0) as usize
}

// The masses that are saved of a threshold.
pub fn live_count(t: Threshold) -> usize
    ensures { (result ≡ live_count t) × (result < 2 ^ 33) }
{
    match t.mark {
        Mark::Open => counts_between(t.walked.lower, t.walked.upper),
        Mark::Above(_) | Mark::AtMost(_) => 0,
    }
}

// Open boundaries count from 1 to 769 masses.
pub(crate) fn count_fits(t: Threshold) -> bool
    ensures { result ≡ count_fits t.mark t.walked }
{
    match t.mark {
        Mark::Open => (1..=WIDE).contains(&counts_between(t.walked.lower, t.walked.upper)),
        Mark::Above(_) | Mark::AtMost(_) => true,
    }
}

// The masses of so many thresholds together.
pub(crate) fn masses_of(records: &[Threshold]) -> usize
    requires { length records.now ≤ count_limit }
    ensures { result ≡ masses_to (λ i. get_or records.now i no_record) (length records.now) }
{
    records.iter().map(|t| live_count(*t)).sum()
}
