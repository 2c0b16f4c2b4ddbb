// Reading a stored plan: any bytes give a plan or a refusal (rules 2.2).
ghost use Rattle.std.specs.Prelude.{◌≡◌, ◌+◌, ◌*◌, ◌≤◌, length};
ghost use Rattle.refusals.specs.Refusals.{refusal_in};
ghost use Rattle.plan.specs.Plan.{count_limit, bucket_limit};
ghost use Rattle.little.specs.Little.{column, filled};
ghost use Rattle.stored_plan.specs.Form.{header_size, threshold_entry_size, allowance_field, bucket_entry_size, right_field, form_size};
ghost use Rattle.stored_plan.specs.Reading.{count_in, buckets_in, plan_in, offsets_fit, form_refusal, decoded, read_as, lent_as};
ghost use Rattle.stored_plan.specs.Inner.{Blank};

use crate::form::{
    ALLOWANCE_FIELD, BUCKET_ENTRY_SIZE, BUCKET_OFFSET_FIELD, BUCKETS_FIELD, COUNT_FIELD,
    DELAY_FIELD, HORIZON_FIELD, RIGHT_FIELD, THRESHOLD_ENTRY_SIZE, THRESHOLD_OFFSET_FIELD,
    bucket_offset, form_size,
};
use crate::{HEADER_SIZE, NO_PLAN};
use little::numbers::{read_u16, read_u32, read_u64};
use plan::rules::counts_fit;
use plan::{BUCKET_LIMIT, COUNT_LIMIT, POINT_LIMIT, Plan};
use refusals::{Refusal, ensure};

// Whether the header's offsets are those of its counts.
fn offsets_fit(bytes: &[u8]) -> bool
    requires { header_size ≤ length bytes.now }
    ensures { result ≡ offsets_fit bytes.now }
{
    let count = read_u16(bytes, COUNT_FIELD);
    let thresholds = read_u16(bytes, THRESHOLD_OFFSET_FIELD) as usize;
    let buckets = read_u16(bytes, BUCKET_OFFSET_FIELD) as usize;
    thresholds == HEADER_SIZE && buckets == bucket_offset(count)
}

// Whether a form that has a header keeps the rules of forms, before its plan is judged.
fn judge_form(bytes: &[u8]) -> Result<(), Refusal>
    requires { header_size ≤ length bytes.now }
    ensures { refusal_in result ≡ form_refusal bytes.now }
{
    let count = read_u16(bytes, COUNT_FIELD);
    let buckets = read_u16(bytes, BUCKETS_FIELD);
    let counts = counts_fit(count, buckets);
    let offsets = offsets_fit(bytes);
    ensure(counts, Refusal::Counts)?;
    ensure(offsets, Refusal::Form)?;
    ensure(bytes.len() == form_size(count, buckets), Refusal::Form)
}

// The thresholds and the allowances of so many entries, into the first places of their tables: by an index, since an entry fills a place of both.
fn thresholds_in(
    bytes: &[u8],
    count: usize,
    thresholds: &mut [u32; COUNT_LIMIT],
    allowances: &mut [u64; COUNT_LIMIT],
)
    requires { (count ≤ count_limit) × (header_size + threshold_entry_size * count ≤ length bytes.now) }
    ensures { (thresholds.new ≡ filled count (column 4 header_size threshold_entry_size bytes.now) thresholds.old)
        × (allowances.new ≡ filled count (column 8 (header_size + allowance_field) threshold_entry_size bytes.now) allowances.old) }
{
    for i in 0..count {
        let at = HEADER_SIZE + THRESHOLD_ENTRY_SIZE * i;
        thresholds[i] = read_u32(bytes, at);
        allowances[i] = read_u64(bytes, at + ALLOWANCE_FIELD);
    }
}

// The ends of so many buckets whose entries begin at an offset, into the first places of their tables.
fn buckets_in(
    bytes: &[u8],
    from: usize,
    count: usize,
    left: &mut [u32; BUCKET_LIMIT],
    right: &mut [u32; BUCKET_LIMIT],
)
    requires { (count ≤ bucket_limit) × (from + bucket_entry_size * count ≤ length bytes.now) }
    ensures { (left.new ≡ filled count (column 4 from bucket_entry_size bytes.now) left.old)
        × (right.new ≡ filled count (column 4 (from + right_field) bucket_entry_size bytes.now) right.old) }
{
    for j in 0..count {
        let at = from + BUCKET_ENTRY_SIZE * j;
        left[j] = read_u32(bytes, at);
        right[j] = read_u32(bytes, at + RIGHT_FIELD);
    }
}

// The plan of a form that its counts and its length fit, which has no points, into one whose tables of thresholds and buckets are zeros.
#[tactic(auto, unfolding(crate::specs::Form::form_size, crate::specs::Form::bucket_offset, crate::specs::Reading::count_in, crate::specs::Reading::buckets_in))]
fn plan_into(bytes: &[u8], plan: &mut Plan)
    requires { ((count_in bytes.now ≤ count_limit) × (buckets_in bytes.now ≤ bucket_limit)
        × (length bytes.now ≡ form_size (count_in bytes.now) (buckets_in bytes.now)))
        × Blank plan.old }
    ensures { plan.new ≡ plan_in bytes.now }
{
    plan.count = read_u16(bytes, COUNT_FIELD);
    plan.buckets = read_u16(bytes, BUCKETS_FIELD);
    plan.delay = read_u32(bytes, DELAY_FIELD);
    plan.horizon = read_u32(bytes, HORIZON_FIELD);
    plan.points = 0;
    plan.steps = [0; POINT_LIMIT];
    plan.shares = [0; POINT_LIMIT];
    let k = plan.count as usize;
    let b = plan.buckets as usize;
    let at = bucket_offset(plan.count);
    thresholds_in(bytes, k, &mut plan.thresholds, &mut plan.allowances);
    buckets_in(bytes, at, b, &mut plan.left, &mut plan.right);
}

// The same as `read_plan` into a lent plan whose tables of thresholds and buckets are zeros, of which nothing is said on a refusal: a plan that
// is handed back is copied.
pub fn read_into(bytes: &[u8], plan: &mut Plan) -> Result<(), Refusal>
    requires { Blank plan.old }
    ensures { lent_as result plan.new ≡ decoded bytes.now }
{
    ensure(HEADER_SIZE <= bytes.len(), Refusal::Form)?;
    judge_form(bytes)?;
    plan_into(bytes, plan);
    plan.judge()
}

// The plan that any bytes hold, or the refusal: that of a length under the header's, the form's, the plan's.
pub fn read_plan(bytes: &[u8]) -> Result<Plan, Refusal>
    ensures { read_as result ≡ decoded bytes.now }
{
    let mut plan = NO_PLAN;
    read_into(bytes, &mut plan)?;
    Ok(plan)
}
