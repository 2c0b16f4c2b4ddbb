// Writing a plan into lent bytes (rules 2.3).
ghost use Rattle.std.specs.Prelude.{◌≡◌, List, ℕ, ◌+◌, ◌*◌, ◌≤◌, length};
ghost use Rattle.refusals.specs.Refusals.{refusal_in};
ghost use Rattle.plan.specs.Plan.{count_limit, bucket_limit};
ghost use Rattle.plan.specs.Places.{join_to};
ghost use Rattle.little.specs.Little.{put_at};
ghost use Rattle.stored_plan.specs.Form.{header_size, bucket_offset, form_size, pair, header, threshold_entries, bucket_entries};
ghost use Rattle.stored_plan.specs.Writing.{write_refusal, written, bytes_after, written_as};

use crate::HEADER_SIZE;
use crate::form::{COUNT_FIELD, DELAY_FIELD, THRESHOLD_OFFSET_FIELD, bucket_offset, form_size};
use little::numbers::write_two;
use plan::Plan;
use refusals::{Refusal, ensure};

// The header's counts and offsets, then its times.
fn write_header(bytes: &mut [u8], p: &Plan)
    requires { header_size ≤ length bytes.old }
    ensures { bytes.new ≡ put_at 0 (header p.now) bytes.old }
{
    write_two(bytes, COUNT_FIELD, 2, p.count, 2, u64::from(p.buckets));
    let at = bucket_offset(p.count) as u64;
    write_two(bytes, THRESHOLD_OFFSET_FIELD, 2, HEADER_SIZE as u32, 2, at);
    write_two(bytes, DELAY_FIELD, 4, p.delay, 4, u64::from(p.horizon));
}

// An entry for each two numbers at one place, the first of four bytes and the second of `width`, one behind the other from an offset on.
fn write_entries(bytes: &mut [u8], at: usize, first: &[u32], width: usize, second: &[u64])
    requires { (length first.now ≡ length second.now) × (at + (4 + width) * length first.now ≤ length bytes.old) }
    ensures { bytes.new ≡ put_at at (join_to (length first.now) (pair 4 width first.now second.now)) bytes.old }
{
    for (i, (&v, &w)) in first.iter().zip(second).enumerate() {
        write_two(bytes, at + (4 + width) * i, 4, v, width, w);
    }
}

// An entry for each counted threshold, with its allowance.
fn write_thresholds(bytes: &mut [u8], p: &Plan)
    requires { (p.now.count ≤ count_limit) × (bucket_offset p.now.count ≤ length bytes.old) }
    ensures { bytes.new ≡ put_at header_size (threshold_entries p.now) bytes.old }
{
    let k = p.count as usize;
    write_entries(
        bytes,
        HEADER_SIZE,
        &p.thresholds[..k],
        8,
        &p.allowances[..k],
    );
}

// An entry for each counted bucket.
fn write_buckets(bytes: &mut [u8], p: &Plan)
    requires { (p.now.buckets ≤ bucket_limit) × (form_size p.now.count p.now.buckets ≤ length bytes.old) }
    ensures { bytes.new ≡ put_at (bucket_offset p.now.count) (bucket_entries p.now) bytes.old }
{
    let b = p.buckets as usize;
    let right = p.right.map(u64::from);
    write_entries(bytes, bucket_offset(p.count), &p.left[..b], 4, &right[..b]);
}

// Whether a plan may be written into so many bytes: it keeps its rules, has no points, of which the form has none, and fits.
fn judge_writing(p: &Plan, room: usize) -> Result<(), Refusal>
    ensures { (bytes : List ℕ) → length bytes ≡ room → refusal_in result ≡ write_refusal p.now bytes }
{
    p.judge()?;
    ensure(p.points == 0, Refusal::PointsInForm)?;
    ensure(form_size(p.count, p.buckets) <= room, Refusal::Room)
}

// The form of any plan into any lent bytes, and its length, or the refusal, on which no byte changes.
pub fn write_plan(p: &Plan, bytes: &mut [u8]) -> Result<usize, Refusal>
    ensures { (written_as result ≡ written p.now bytes.old) × (bytes.new ≡ bytes_after p.now bytes.old) }
{
    judge_writing(p, bytes.len())?;
    write_header(bytes, p);
    write_thresholds(bytes, p);
    write_buckets(bytes, p);
    Ok(form_size(p.count, p.buckets))
}
