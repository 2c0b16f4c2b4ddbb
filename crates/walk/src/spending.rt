// What a side of a threshold may have spent (rules 3.1).

ghost use Rattle.std.specs.Prelude.{◌≡◌, ◌≤◌};
ghost use Rattle.walk.specs.Units.{million, allowance_limit};
ghost use Rattle.walk.specs.Spending.{portioned};

use crate::Portion;

// E(n) of this allowance, from the portion that may be spent, under an accepted plan, which keeps these bounds.
pub fn spending_at(allowance: u64, portion: Portion) -> u64
    requires { (allowance ≤ allowance_limit) × (portion.numerator ≤ million) × (1 ≤ portion.denominator) }
    ensures { result ≡ portioned portion allowance }
{
    allowance * portion.numerator / portion.denominator
}
