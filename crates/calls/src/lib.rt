// The calls from C over saved tests (saved 6, 7), which `calls_c` exports: bytes and numbers only, and nothing kept between them.
#![tactic(auto)]

mod answers;
mod beginning;
mod drawing;
mod stands;
mod turns;

ghost use Rattle.std.specs.Prelude.{◌≡◌};
ghost use Rattle.calls.specs.Calls.{called_begin, called_draw};
ghost use Rattle.calls.specs.Inner.{Hands};

use answers::returned;
use beginning::begin_on;
use bucket_choice::choosing::Interval;
use bucket_test::Answer;
use drawing::{judge_draw, take};
use refusals::Refusal;
use stored_plan::NO_PLAN;
use stored_plan::reading::{read_into, read_plan};

// How the records of a test stand to the answer rule: the interval, and whether an open threshold is wide.
#[derive(Clone, Copy)]
pub struct Standing {
    pub interval: Interval,
    pub wide: bool,
}

// The masses that the turns left, and how the new records stand.
#[derive(Clone, Copy)]
pub struct Turned {
    pub masses: usize,
    pub standing: Standing,
}

fn answer_beginning(plan: &[u8], lent: &mut [u8]) -> Result<Answer, Refusal>
    ensures { Hands (called_begin plan.now lent.old) result lent.new }
{
    let p = read_plan(plan)?;
    begin_on(&p, lent)
}

// Any plan bytes and any lent bytes may be handed in.
pub fn vimorake_begin(plan: &[u8], lent: &mut [u8]) -> u32
    ensures { (result ≡ (called_begin plan.now lent.old).number)
        × (lent.new ≡ (called_begin plan.now lent.old).bytes) }
{
    returned(answer_beginning(plan, lent))
}

// The plan is read into its place, since one that is handed back is copied: on a short form that costs as much as the rest of the reading.
#[tactic(auto, unfolding(stored_plan::specs::Reading::no_plan))]
fn answer_draw(plan: &[u8], saved: &[u8], draw: u32, lent: &mut [u8]) -> Result<Answer, Refusal>
    ensures { Hands (called_draw plan.now saved.now draw lent.old) result lent.new }
{
    let mut p = NO_PLAN;
    read_into(plan, &mut p)?;
    judge_draw(&p, saved, draw)?;
    take(&p, saved, draw, lent)
}

// Any plan bytes, saved bytes, draw and lent bytes may be handed in.
pub fn vimorake_draw(plan: &[u8], saved: &[u8], draw: u32, lent: &mut [u8]) -> u32
    ensures { (result ≡ (called_draw plan.now saved.now draw lent.old).number)
        × (lent.new ≡ (called_draw plan.now saved.now draw lent.old).bytes) }
{
    returned(answer_draw(plan, saved, draw, lent))
}
