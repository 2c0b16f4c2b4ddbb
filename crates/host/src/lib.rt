// The entries of the library on C's structs, for the comparison of `tests/`, which `host_c` exports: any plan, state, words, bytes and run go in,
// and what an entry hands back comes out.

#![tactic(auto)]

mod plans;
pub mod runs;
mod states;
mod writings;

ghost use Rattle.std.specs.Prelude.{◌≡◌};
ghost use Rattle.plan.specs.Plan.{plan_refusal};
ghost use Rattle.bucket_test.specs.Draw.{drawn_of, begun, drawn, report};
ghost use Rattle.stored_plan.specs.Reading.{decoded};
ghost use Rattle.stored_plan.specs.Writing.{written, bytes_after};
ghost use Rattle.saved_test.specs.Reading.{loaded, words_after};
ghost use Rattle.saved_test.specs.Writing.{saved, bytes_after as saveBytes};
ghost use Rattle.host.specs.Plans.{plan_in, plan_out};
ghost use Rattle.host.specs.States.{state_in, drawn_out, loaded_out, report_out};

use bucket_test::drawing::{begin, draw, report_on};
use plan::{BUCKET_LIMIT, COUNT_LIMIT, POINT_LIMIT, Plan};
use saved_test::reading::read_test;
use saved_test::writing::write_test;
use stored_plan::reading::read_plan;
use stored_plan::writing::write_plan;
use writings::refusal_of;

// A plan, with the number of its refusal where one was asked for.
#[repr(C)]
#[derive(Clone, Copy)]
pub struct HostPlan {
    pub refusal: u32,
    pub count: u32,
    pub buckets: u32,
    pub delay: u32,
    pub horizon: u32,
    pub points: u32,
    pub thresholds: [u32; COUNT_LIMIT],
    pub allowances: [u64; COUNT_LIMIT],
    pub left: [u32; BUCKET_LIMIT],
    pub right: [u32; BUCKET_LIMIT],
    pub steps: [u32; POINT_LIMIT],
    pub shares: [u32; POINT_LIMIT],
}

// A record. Its mark is 0 open, 1 above, 2 at most, at a step.
#[repr(C)]
#[derive(Clone, Copy)]
pub struct HostRecord {
    pub mark: u32,
    pub step: u32,
    pub lower: i32,
    pub upper: u32,
    pub over: u64,
    pub under: u64,
    pub rounded: u32,
}

// A state, with the answer of the call that handed it back: 0 open, 1 decided, 2 crossed, 3 wide, 4 spent, 5 refused, and the number of the
// bucket or of the refusal.
#[repr(C)]
#[derive(Clone, Copy)]
pub struct HostState {
    pub answer: u32,
    pub number: u32,
    pub n: u32,
    pub ones: u32,
    pub records: [HostRecord; COUNT_LIMIT],
}

// A test that was read, with the number of the refusal.
#[repr(C)]
#[derive(Clone, Copy)]
pub struct HostTest {
    pub refusal: u32,
    pub n: u32,
    pub ones: u32,
    pub records: [HostRecord; COUNT_LIMIT],
}

// An answer with its interval.
#[repr(C)]
#[derive(Clone, Copy)]
pub struct HostReport {
    pub answer: u32,
    pub number: u32,
    pub low: u32,
    pub high: u32,
}

// A refusal and a number of bytes.
#[repr(C)]
#[derive(Clone, Copy)]
pub struct HostWritten {
    pub refusal: u32,
    pub size: usize,
}

// A run of counting, with the answer of the call that handed it back: 0 open, 1 ended with first / second, 2 refused by the first.
#[repr(C)]
#[derive(Clone, Copy)]
pub struct HostRun {
    pub answer: u32,
    pub first: u32,
    pub second: u32,
    pub stop: u32,
    pub size: u32,
    pub taken: u32,
    pub ones: u32,
}

pub fn host_plan_refusal(p: HostPlan) -> u32
    ensures { result ≡ plan_refusal (plan_in p) }
{
    refusal_of(Plan::from(p).judge())
}

pub fn host_begin(p: HostPlan, words: &mut [u64]) -> HostState
    ensures { (result ≡ drawn_out (drawn_of (begun (plan_in p) words.old)))
        × (words.new ≡ (begun (plan_in p) words.old).words) }
{
    begin(&p.into(), words).into()
}

pub fn host_draw(p: HostPlan, s: HostState, words: &mut [u64], d: u8) -> HostState
    ensures { (result ≡ drawn_out (drawn_of (drawn (plan_in p) (state_in s) words.old d)))
        × (words.new ≡ (drawn (plan_in p) (state_in s) words.old d).words) }
{
    draw(&p.into(), s.into(), words, d).into()
}

pub fn host_report_on(p: HostPlan, s: HostState) -> HostReport
    ensures { result ≡ report_out (report (plan_in p) (state_in s)) }
{
    report_on(&p.into(), &s.into()).into()
}

pub fn host_read_plan(bytes: &[u8]) -> HostPlan
    ensures { result ≡ plan_out (decoded bytes.now).refusal (decoded bytes.now).plan }
{
    read_plan(bytes).into()
}

pub fn host_write_plan(p: HostPlan, bytes: &mut [u8]) -> HostWritten
    ensures { (result.refusal ≡ (written (plan_in p) bytes.old).refusal)
        × (result.size ≡ (written (plan_in p) bytes.old).size)
        × (bytes.new ≡ bytes_after (plan_in p) bytes.old) }
{
    write_plan(&p.into(), bytes).into()
}

pub fn host_read_test(p: HostPlan, bytes: &[u8], words: &mut [u64]) -> HostTest
    ensures { (result ≡ loaded_out (loaded (plan_in p) bytes.now words.old))
        × (words.new ≡ words_after (plan_in p) bytes.now words.old) }
{
    read_test(&p.into(), bytes, words).into()
}

pub fn host_write_test(p: HostPlan, s: HostState, words: &[u64], bytes: &mut [u8]) -> HostWritten
    ensures { (result.refusal ≡ (saved (plan_in p) (state_in s) words.now bytes.old).refusal)
        × (result.size ≡ (saved (plan_in p) (state_in s) words.now bytes.old).size)
        × (bytes.new ≡ saveBytes (plan_in p) (state_in s) words.now bytes.old) }
{
    write_test(&p.into(), &s.into(), words, bytes).into()
}
