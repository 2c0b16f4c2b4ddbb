// Of the buckets that contain an interval, the first of the narrowest (rules 7.1, 7.2).

ghost use Rattle.std.specs.Prelude.{◌≡◌, ◌&&◌, ◌-◌, ◌≤◌, ◌<◌};
ghost use Rattle.walk.specs.Numbers.{le?};
ghost use Rattle.plan.specs.Plan.{bucket_limit, left_at, right_at};
ghost use Rattle.bucket_choice.specs.Choice.{chosen_bucket, named};

use plan::Plan;

// The interval from low to high, in millionths.
#[derive(Clone, Copy)]
pub struct Interval {
    pub low: u32,
    pub high: u32,
}

// A bucket of a plan, from left to right, in millionths.
#[derive(Clone, Copy)]
struct Bucket {
    left: u32,
    right: u32,
}

impl Bucket {
    fn contains(self, interval: Interval) -> bool
        ensures { result ≡ (le? self.left interval.low && le? interval.high self.right) }
    {
        self.left <= interval.low && interval.high <= self.right
    }

    // 0 where the right end is below the left one, as in no accepted plan.
    fn width(self) -> u32
        ensures { result ≡ self.right - self.left }
    {
        self.right.saturating_sub(self.left)
    }
}

// The bucket at place j, of at most sixteen.
fn bucket_at(p: &Plan, j: u32) -> Bucket
    requires { j < bucket_limit }
    ensures { result ≡ record { left = left_at p.now j; right = right_at p.now j } }
{
    let at = j as usize;
    Bucket {
        left: p.left[at],
        right: p.right[at],
    }
}

// The place in the plan of the bucket that is named, or None where no bucket contains the interval.
pub fn chosen_bucket(p: &Plan, interval: Interval) -> Option<u32>
    requires { p.now.buckets ≤ bucket_limit }
    ensures { result ≡ named p.now.buckets (chosen_bucket p.now interval.low interval.high) }
{
    (0..p.buckets)
        .filter(|&j| bucket_at(p, j).contains(interval))
        .min_by_key(|&j| bucket_at(p, j).width())
}
