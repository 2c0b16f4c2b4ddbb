// Refusals, and how many bytes were written, as they go out.

ghost use Rattle.std.specs.Prelude.{◌≡◌, ℕ, Result, Ok, Err};
ghost use Rattle.refusals.specs.Refusals.{refusal_in};
ghost use Rattle.refusals.specs.declared.Refusal.{Refusal};
ghost use Rattle.stored_plan.specs.Writing.{written_as};

use crate::HostWritten;
use refusals::Refusal;

// C has a refusal by its number, 0 for none.
pub(crate) fn refusal_of<T: Drop>(r: Result<T, Refusal>) -> u32
    ensures { result ≡ refusal_in r }
{
    match r {
        Ok(_) => 0,
        Err(refusal) => refusal.number(),
    }
}

impl From<Result<usize, Refusal>> for HostWritten {
    ghost from_gives = { λ r w. (w.refusal ≡ (written_as r).refusal) × (w.size ≡ (written_as r).size) };

    fn from(r: Result<usize, Refusal>) -> HostWritten {
        HostWritten {
            refusal: refusal_of(r),
            size: r.unwrap_or(0),
        }
    }
}
