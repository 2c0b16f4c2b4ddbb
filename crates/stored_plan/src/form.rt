// The layout of a stored form (rules 2.1): sizes and offsets, in bytes.
ghost use Rattle.std.specs.Prelude.{◌≡◌};
ghost use Rattle.stored_plan.specs.Form.{bucket_offset, form_size};

use crate::HEADER_SIZE;

// The header's fields.
pub(crate) const COUNT_FIELD: usize = 0;

pub(crate) const BUCKETS_FIELD: usize = 2;

pub(crate) const THRESHOLD_OFFSET_FIELD: usize = 4;

pub(crate) const BUCKET_OFFSET_FIELD: usize = 6;

pub(crate) const DELAY_FIELD: usize = 8;

pub(crate) const HORIZON_FIELD: usize = 12;

// The entry of a threshold, and in it the allowance; the entry of a bucket, and in it the right end.
pub(crate) const THRESHOLD_ENTRY_SIZE: usize = 12;

pub(crate) const ALLOWANCE_FIELD: usize = 4;

pub(crate) const BUCKET_ENTRY_SIZE: usize = 8;

pub(crate) const RIGHT_FIELD: usize = 4;

// The offset of the buckets behind so many thresholds.
#[tactic(auto, unfolding(crate::specs::Form::bucket_offset))]
pub(crate) fn bucket_offset(count: u32) -> usize
    ensures { result ≡ bucket_offset count }
{
    HEADER_SIZE + THRESHOLD_ENTRY_SIZE * count as usize
}

// The length of a form with so many thresholds and buckets.
#[tactic(auto, unfolding(crate::specs::Form::form_size, crate::specs::Form::bucket_offset))]
pub(crate) fn form_size(count: u32, buckets: u32) -> usize
    ensures { result ≡ form_size count buckets }
{
    bucket_offset(count) + BUCKET_ENTRY_SIZE * buckets as usize
}
