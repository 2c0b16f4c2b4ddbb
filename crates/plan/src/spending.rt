// What may be spent of each allowance under a plan (rules 3.1).
ghost use Rattle.std.specs.Prelude.{◌≡◌, ◌≤◌};
ghost use Rattle.plan.specs.Points.{share_by};
ghost use Rattle.plan.specs.Plan.{point_limit, step_at, share_at};
ghost use Rattle.plan.specs.Tables.{portion_of};

use crate::Plan;
use walk::{MILLION, Portion};

impl Plan {
    // The share of the last point at or before n; 0 before the first.
    fn share_by(&self, n: u32) -> u32
        requires { self.now.points ≤ point_limit }
        ensures { result ≡ share_by (step_at self.now) (share_at self.now) self.now.points n }
    {
        let count = self.points as usize;
        let mut last = 0;
        for (&step, &share) in self.steps[..count].iter().zip(&self.shares[..count]) {
            if step <= n {
                last = share;
            }
        }
        last
    }

    // The portion of each allowance that may have been spent after n draws: the share of the last point at or before n, in millionths, where there are
    // points; else n / (n + delay).
    pub fn portion_at(&self, n: u32) -> Portion
        requires { self.now.points ≤ point_limit }
        ensures { result ≡ portion_of self.now n }
    {
        if self.points == 0 {
            let draws = u64::from(n);
            return Portion {
                numerator: draws,
                denominator: draws + u64::from(self.delay),
            };
        }
        Portion {
            numerator: u64::from(self.share_by(n)),
            denominator: u64::from(MILLION),
        }
    }
}
