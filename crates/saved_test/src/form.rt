// The layout of a saved test (saved 1): sizes and offsets, in bytes.

pub const HEADER_SIZE: usize = 24;

// The header's fields.
pub(crate) const COUNT_FIELD: usize = 0;

pub(crate) const MASSES_FIELD: usize = 2;

pub(crate) const RECORD_OFFSET_FIELD: usize = 4;

pub(crate) const MASS_OFFSET_FIELD: usize = 6;

pub(crate) const SIZE_FIELD: usize = 8;

pub const DRAWS_FIELD: usize = 12;

pub const ONES_FIELD: usize = 16;

pub(crate) const RECORD_SIZE_FIELD: usize = 20;

pub(crate) const MASS_SIZE_FIELD: usize = 22;

// A record, and its fields behind the mark.
pub const RECORD_SIZE: usize = 36;

pub(crate) const STEP_FIELD: usize = 4;

pub(crate) const LOWER_FIELD: usize = 8;

pub(crate) const UPPER_FIELD: usize = 12;

pub(crate) const OVER_FIELD: usize = 16;

pub(crate) const UNDER_FIELD: usize = 24;

pub(crate) const ROUNDED_FIELD: usize = 32;

pub const MASS_SIZE: usize = 8;
