// The plan of a test, and its rules.
#![tactic(auto)]

pub mod rules;
pub mod spending;

// The most thresholds, buckets and points. These are the limits of specs/Plan.
pub const COUNT_LIMIT: usize = 10;

pub const BUCKET_LIMIT: usize = 16;

pub const POINT_LIMIT: usize = 8;

// The largest threshold and the least difference of neighbouring ones, in millionths, and the largest delay.
pub const THRESHOLD_LIMIT: u32 = 999999;

pub const LEAST_DIFFERENCE: u32 = 100;

pub const DELAY_LIMIT: u32 = 65535;

// A plan (rules 1.2): so many thresholds, in millionths, with an allowance each, in units, so many buckets, each from a left to a right
// end, in millionths, the delay k, the horizon N, and so many points, each a step and a share of the allowances, in millionths. Places past a
// count are ignored.
#[derive(Clone, Copy)]
pub struct Plan {
    pub count: u32,
    pub buckets: u32,
    pub delay: u32,
    pub horizon: u32,
    pub points: u32,
    pub thresholds: [u32; COUNT_LIMIT],
    pub allowances: [u64; COUNT_LIMIT],
    pub left: [u32; BUCKET_LIMIT],
    pub right: [u32; BUCKET_LIMIT],
    pub steps: [u32; POINT_LIMIT],
    pub shares: [u32; POINT_LIMIT],
}
