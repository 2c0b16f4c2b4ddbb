// One step of a walk (rules 3.3 to 3.6).

ghost use Rattle.std.specs.Prelude.{◌≡◌, length};
ghost use Rattle.walk.specs.Units.{wide};
ghost use Rattle.walk.specs.Row.{step_row};
ghost use Rattle.walk.specs.Record.{row_of, record_of, padded};
ghost use Rattle.walk.specs.Soundness.{Steppable};

use crate::Walked;
use crate::row::{clear_from, spread, trim};

// One step of the walk of the threshold a, in place, with e to spend: the new live masses stand in front, and what stands behind them is
// left as it comes. The part may be of any length with a word more than are live: the code touches no other word. For `bucket_test` only, which
// steps a state that refusal 11 lets through after at most 50,000 draws, and that is not wide.
pub fn advance(part: &mut [u64], w: Walked, a: u32, e: u64) -> Walked
    requires { Steppable a e w part.old }
    ensures { (result ≡ record_of (step_row a e (row_of w part.old)))
        × (row_of result part.new ≡ step_row a e (row_of w part.old)) }
{
    let n = w.live();
    let more = spread(part, n, u64::from(a));
    let cut = trim(part, n + 1, w.over, w.under, e);
    Walked {
        lower: w.raised(cut.lo),
        upper: w.first() + cut.hi as u32,
        over: cut.over,
        under: cut.under,
        rounded: w.rounded + more,
    }
}

// The same in the 769 words of a part, where zeros follow the live masses.
pub fn step(part: &mut [u64], w: Walked, a: u32, e: u64) -> Walked
    requires { Steppable a e w part.old × (length part.old ≡ wide) }
    ensures { (result ≡ record_of (step_row a e (row_of w part.old)))
        × (part.new ≡ padded (step_row a e (row_of w part.old)).masses) }
{
    let next = advance(part, w, a, e);
    clear_from(part, next.live());
    next
}
