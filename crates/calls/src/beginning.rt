// Beginning a saved test (saved 6).
ghost use Rattle.std.specs.Prelude.{◌≡◌, ◌+◌, ◌*◌, ◌≤◌, length};
ghost use Rattle.walk.specs.Units.{M};
ghost use Rattle.plan.specs.Places.{join_to};
ghost use Rattle.plan.specs.Plan.{count_limit, plan_refusal};
ghost use Rattle.little.specs.Little.{to_le, put_at};
ghost use Rattle.saved_test.specs.Form.{mass_size, record_offset};
ghost use Rattle.calls.specs.Calls.{begun_on};
ghost use Rattle.calls.specs.Inner.{Hands};

use bucket_test::Answer;
use bucket_test::answering::answer_of;
use bucket_test::starting::ten_of;
use little::numbers::write_le;
use plan::Plan;
use refusals::{Refusal, ensure};
use saved_test::form::{HEADER_SIZE, MASS_SIZE, RECORD_SIZE};
use saved_test::writing::write_front;
use walk::M;
use walk::starting::start_walked;

// One mass, the whole, for each of so many thresholds, behind the place of header and records.
fn start_masses(lent: &mut [u8], count: usize)
    requires { (count ≤ count_limit) × (record_offset count + mass_size * count ≤ length lent.old) }
    ensures { lent.new ≡ put_at (record_offset count) (join_to count (λ i. to_le mass_size M)) lent.old }
{
    let at = HEADER_SIZE + RECORD_SIZE * count;
    for i in 0..count {
        write_le(lent, at + MASS_SIZE * i, MASS_SIZE, M);
    }
}

// A beginning under an accepted plan: its answer, with the form in the lent bytes.
pub(crate) fn begin_on(p: &Plan, lent: &mut [u8]) -> Result<Answer, Refusal>
    requires { plan_refusal p.now ≡ 0 }
    ensures { Hands (begun_on 0 p.now lent.old) result lent.new }
{
    let count = p.count as usize;
    let size = HEADER_SIZE + RECORD_SIZE * count + MASS_SIZE * count;
    ensure(size <= lent.len(), Refusal::Room)?;
    start_masses(lent, count);
    let s = ten_of(start_walked());
    write_front(lent, p, &s);
    Ok(answer_of(p, &s))
}
