// The plan's rules: refusals 1, 2, 14, 3, 4, 16, 5, 6 in this order, each over all entries before the next (rules 1.4, 8.2). Places past a
// count are not read.
ghost use Rattle.std.specs.Prelude.{◌≡◌, ◌≤◌, take};
ghost use Rattle.plan.specs.Places.{within};
ghost use Rattle.plan.specs.Plan.{count_limit, bucket_limit, counts_fit, rule2, rule14, rule3, rule4, rule16, permitted, rule5, covered_above, rule6, plan_refusal};
ghost use Rattle.plan.specs.Tables.{ends_fit};
ghost use Rattle.refusals.specs.Refusals.{refusal_in};

use crate::{
    BUCKET_LIMIT, COUNT_LIMIT, DELAY_LIMIT, LEAST_DIFFERENCE, POINT_LIMIT, Plan, THRESHOLD_LIMIT,
};
use refusals::{Refusal, ensure};
use walk::{ALLOWANCE_LIMIT, HORIZON_LIMIT, MILLION};

// The limits of the counts, as numbers like them.
const MOST_THRESHOLDS: u32 = COUNT_LIMIT as u32;

const MOST_BUCKETS: u32 = BUCKET_LIMIT as u32;

const MOST_POINTS: u32 = POINT_LIMIT as u32;

// From lo to hi, both included.
pub fn within(x: u32, lo: u32, hi: u32) -> bool
    ensures { result ≡ within lo hi x }
{
    (lo..=hi).contains(&x)
}

// Rule 1, of any counts: so many thresholds and so many buckets. It is also the stored form's rule 1.
pub fn counts_fit(count: u32, buckets: u32) -> bool
    ensures { result ≡ counts_fit count buckets }
{
    within(count, 1, MOST_THRESHOLDS) && within(buckets, 2, MOST_BUCKETS)
}

impl Plan {
    // The counted thresholds.
    fn counted_thresholds(&self) -> &[u32]
        requires { self.now.count ≤ count_limit }
        ensures { result.now ≡ take self.now.count self.now.thresholds }
    {
        &self.thresholds[..self.count as usize]
    }

    // Rule 2: each threshold in its range and above the one before. Judged after rule 1, which keeps the places inside the array.
    fn thresholds_rise(&self) -> bool
        requires { self.now.count ≤ count_limit }
        ensures { result ≡ rule2 self.now }
    {
        let mut before = 0;
        for &t in self.counted_thresholds() {
            if t <= before || THRESHOLD_LIMIT < t {
                return false;
            }
            before = t;
        }
        true
    }

    // Rule 14: every two neighbours differ by at least 100 millionths. Judged after rule 1.
    fn thresholds_apart(&self) -> bool
        requires { self.now.count ≤ count_limit }
        ensures { result ≡ rule14 self.now }
    {
        let Some((first, others)) = self.counted_thresholds().split_first() else {
            return true;
        };
        let mut before = *first;
        for &t in others {
            if t.saturating_sub(before) < LEAST_DIFFERENCE {
                return false;
            }
            before = t;
        }
        true
    }

    // Rule 3: each allowance in its range, below one half. Judged after rule 1.
    fn allowances_fit(&self) -> bool
        requires { self.now.count ≤ count_limit }
        ensures { result ≡ rule3 self.now }
    {
        self.allowances[..self.count as usize]
            .iter()
            .all(|allowance| (1..=ALLOWANCE_LIMIT).contains(allowance))
    }

    // Rule 4: delay and horizon in their ranges.
    fn times_fit(&self) -> bool
        ensures { result ≡ rule4 self.now }
    {
        within(self.delay, 1, DELAY_LIMIT) && within(self.horizon, 1, HORIZON_LIMIT)
    }

    // Rule 16: at most eight points, their steps strictly rising within 1 to the horizon, their shares never falling and at most 1,000,000.
    fn points_fit(&self) -> bool
        ensures { result ≡ rule16 self.now }
    {
        if MOST_POINTS < self.points {
            return false;
        }
        let count = self.points as usize;
        let mut step = 0;
        let mut share = 0;
        for (&next, &more) in self.steps[..count].iter().zip(&self.shares[..count]) {
            if next <= step || self.horizon < next || more < share || MILLION < more {
                return false;
            }
            step = next;
            share = more;
        }
        true
    }

    // An end is permitted: 0, 1,000,000 or a threshold. Judged after rule 1.
    fn permits(&self, end: u32) -> bool
        requires { self.now.count ≤ count_limit }
        ensures { result ≡ permitted self.now end }
    {
        end == 0 || end == MILLION || self.counted_thresholds().iter().any(|&t| t == end)
    }

    // A bucket fits: left end below right end, not the whole of 0 to 1,000,000, and both ends permitted.
    fn bucket_fits(&self, left: u32, right: u32) -> bool
        requires { self.now.count ≤ count_limit }
        ensures { result ≡ ends_fit self.now left right }
    {
        left < right
            && !(left == 0 && right == MILLION)
            && self.permits(left)
            && self.permits(right)
    }

    // Rule 5: each bucket fits. Judged after rule 1.
    fn buckets_fit(&self) -> bool
        requires { (self.now.count ≤ count_limit) × (self.now.buckets ≤ bucket_limit) }
        ensures { result ≡ rule5 self.now }
    {
        let count = self.buckets as usize;
        self.left[..count]
            .iter()
            .zip(&self.right[..count])
            .all(|(&left, &right)| self.bucket_fits(left, right))
    }

    // Whether what lies just above an end is covered: it is at the top, or a bucket begins at or below it and ends above it.
    fn covers_above(&self, end: u32) -> bool
        requires { self.now.buckets ≤ bucket_limit }
        ensures { result ≡ covered_above self.now end }
    {
        let b = self.buckets as usize;
        MILLION <= end
            || self.left[..b]
                .iter()
                .zip(&self.right[..b])
                .any(|(&left, &right)| left <= end && end < right)
    }

    // Rule 6: some bucket begins at 0, and what lies just above each right end is covered: past 0 nothing is left out. Judged after rule 1.
    fn buckets_cover(&self) -> bool
        requires { self.now.buckets ≤ bucket_limit }
        ensures { result ≡ rule6 self.now }
    {
        let b = self.buckets as usize;
        self.left[..b].iter().any(|&left| left == 0)
            && self.right[..b].iter().all(|&end| self.covers_above(end))
    }

    // The first rule that the plan breaks, if any: any plan may be handed in.
    pub fn judge(&self) -> Result<(), Refusal>
        ensures { refusal_in result ≡ plan_refusal self.now }
    {
        ensure(counts_fit(self.count, self.buckets), Refusal::Counts)?;
        ensure(self.thresholds_rise(), Refusal::Thresholds)?;
        ensure(self.thresholds_apart(), Refusal::TooClose)?;
        ensure(self.allowances_fit(), Refusal::Allowances)?;
        ensure(self.times_fit(), Refusal::Times)?;
        ensure(self.points_fit(), Refusal::Points)?;
        ensure(self.buckets_fit(), Refusal::Buckets)?;
        ensure(self.buckets_cover(), Refusal::Cover)
    }
}
