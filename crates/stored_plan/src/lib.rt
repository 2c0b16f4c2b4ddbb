// The stored form of a plan (rules 2).
#![tactic(auto)]

mod form;
pub mod reading;
pub mod writing;

use plan::{BUCKET_LIMIT, COUNT_LIMIT, POINT_LIMIT, Plan};

// The length of the header, and that of the longest form, in bytes (rules 2.1).
pub const HEADER_SIZE: usize = 16;

pub const FORM_LIMIT: usize = 264;

// No plan: zeros in every number.
pub const NO_PLAN: Plan = Plan {
    count: 0,
    buckets: 0,
    delay: 0,
    horizon: 0,
    points: 0,
    thresholds: [0; COUNT_LIMIT],
    allowances: [0; COUNT_LIMIT],
    left: [0; BUCKET_LIMIT],
    right: [0; BUCKET_LIMIT],
    steps: [0; POINT_LIMIT],
    shares: [0; POINT_LIMIT],
};
