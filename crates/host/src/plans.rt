// A plan as it comes in and as it goes out.

ghost use Rattle.std.specs.Prelude.{◌≡◌};
ghost use Rattle.stored_plan.specs.Reading.{read_as};
ghost use Rattle.host.specs.Plans.{plan_in, plan_out};

use crate::HostPlan;
use crate::writings::refusal_of;
use plan::Plan;
use refusals::Refusal;
use stored_plan::NO_PLAN;

impl From<HostPlan> for Plan {
    ghost from_gives = { λ p r. r ≡ plan_in p };

    fn from(p: HostPlan) -> Plan {
        // a table becomes part of a literal by way of a variable: the borrow checker asks it
        let thresholds = p.thresholds;
        let allowances = p.allowances;
        let left = p.left;
        let right = p.right;
        let steps = p.steps;
        let shares = p.shares;
        Plan {
            count: p.count,
            buckets: p.buckets,
            delay: p.delay,
            horizon: p.horizon,
            points: p.points,
            thresholds,
            allowances,
            left,
            right,
            steps,
            shares,
        }
    }
}

impl From<Result<Plan, Refusal>> for HostPlan {
    ghost from_gives = { λ r h. h ≡ plan_out (read_as r).refusal (read_as r).plan };

    fn from(r: Result<Plan, Refusal>) -> HostPlan {
        let plan = r.unwrap_or(NO_PLAN);
        let thresholds = plan.thresholds;
        let allowances = plan.allowances;
        let left = plan.left;
        let right = plan.right;
        let steps = plan.steps;
        let shares = plan.shares;
        HostPlan {
            refusal: refusal_of(r),
            count: plan.count,
            buckets: plan.buckets,
            delay: plan.delay,
            horizon: plan.horizon,
            points: plan.points,
            thresholds,
            allowances,
            left,
            right,
            steps,
            shares,
        }
    }
}
