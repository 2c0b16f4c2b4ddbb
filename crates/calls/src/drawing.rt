// A draw to the test that saved bytes hold, under an accepted plan (saved 6).
ghost use Rattle.std.specs.Prelude.{◌≡◌, [], ◌∷◌, ℕ, ◌+◌, ◌*◌, ◌≤◌, ◌<◌, length};
ghost use Rattle.walk.specs.Units.{wide};
ghost use Rattle.refusals.specs.Refusals.{refusal_in};
ghost use Rattle.plan.specs.Plan.{count_limit, plan_refusal};
ghost use Rattle.saved_test.specs.Form.{header_size, record_size, live_count};
ghost use Rattle.saved_test.specs.Reading.{record_in};
ghost use Rattle.calls.specs.Calls.{drawn_on};
ghost use Rattle.calls.specs.Inner.{Hands, refusal_on, PartHoldsOneMore, Ready, Took};

use crate::Standing;
use crate::stands::has_ended;
use crate::turns::Turning;
use bucket_test::Answer;
use bucket_test::answering::first_that_fits;
use little::numbers::read_u32;
use plan::Plan;
use refusals::{Refusal, ensure};
use saved_test::form::{DRAWS_FIELD, ONES_FIELD};
use saved_test::marks::live_count;
use saved_test::reading::{form_fits, record_in, state_sound_in};
use saved_test::writing::write_header;
use walk::WIDE;

// Words of a part for thresholds with fewer masses each, in place of 769, so that a call on few masses does not set 769 words to zero.
const SHORT: usize = 32;

const MIDDLE: usize = 128;

// By all that refuses a draw but the room: 15, then 9, 10, 11.
pub(crate) fn judge_draw(p: &Plan, saved: &[u8], draw: u32) -> Result<(), Refusal>
    requires { plan_refusal p.now ≡ 0 }
    ensures { refusal_in result ≡ refusal_on p.now saved.now draw }
{
    ensure(form_fits(p, saved), Refusal::SavedForm)?;
    ensure(draw <= 1, Refusal::Draw)?;
    ensure(!has_ended(p, saved), Refusal::Ended)?;
    let portion = p.portion_at(read_u32(saved, DRAWS_FIELD));
    ensure(state_sound_in(p, portion, saved), Refusal::Spoiled)
}

// The draw, with a part to walk in.
fn take_with(
    p: &Plan,
    saved: &[u8],
    draw: u32,
    part: &mut [u64],
    lent: &mut [u8],
) -> Result<Standing, Refusal>
    requires { Ready p.now saved.now draw × PartHoldsOneMore p.now.count saved.now (length part.old) }
    ensures { Took p.now saved.now draw lent.old result lent.new }
{
    let n = read_u32(saved, DRAWS_FIELD) + 1;
    let ones = read_u32(saved, ONES_FIELD) + draw;
    let turning = Turning {
        plan: p,
        saved,
        n,
        ones,
    };
    ensure(turning.has_room(part, lent.len()), Refusal::Room)?;
    let turned = turning.turn_through(part, lent);
    write_header(lent, p.count as usize, turned.masses, n, ones);
    Ok(turned.standing)
}

// .. in a part of its own, of so many words.
fn take_in<const WORDS: usize>(
    p: &Plan,
    saved: &[u8],
    draw: u32,
    lent: &mut [u8],
) -> Result<Standing, Refusal>
    requires { Ready p.now saved.now draw × PartHoldsOneMore p.now.count saved.now WORDS × (WORDS ≤ wide) }
    ensures { Took p.now saved.now draw lent.old result lent.new }
{
    let mut part = [0u64; WORDS];
    take_with(p, saved, draw, &mut part, lent)
}

// As many masses as the threshold with the most has; that none has more is all that is asked.
fn most_masses(bytes: &[u8], count: usize) -> usize
    requires { (count ≤ count_limit) × (header_size + record_size * count ≤ length bytes.now) }
    ensures { (i : ℕ) → i < count → live_count (record_in bytes.now i) ≤ result }
{
    (0..count)
        .map(|i| live_count(record_in(bytes, i)))
        .max()
        .unwrap_or(0)
}

// .. in the smallest of these parts that is enough.
fn take_in_enough(p: &Plan, saved: &[u8], draw: u32, lent: &mut [u8]) -> Result<Standing, Refusal>
    requires { Ready p.now saved.now draw }
    ensures { Took p.now saved.now draw lent.old result lent.new }
{
    let most = most_masses(saved, p.count as usize);
    if most < SHORT {
        return take_in::<SHORT>(p, saved, draw, lent);
    }
    if most < MIDDLE {
        return take_in::<MIDDLE>(p, saved, draw, lent);
    }
    take_in::<WIDE>(p, saved, draw, lent)
}

// The answer to the draw, where nothing but the room can refuse it, with the form in the lent bytes.
pub(crate) fn take(p: &Plan, saved: &[u8], draw: u32, lent: &mut [u8]) -> Result<Answer, Refusal>
    requires { Ready p.now saved.now draw }
    ensures { Hands (drawn_on 0 p.now saved.now draw lent.old) result lent.new }
{
    let after = take_in_enough(p, saved, draw, lent)?;
    let n = read_u32(saved, DRAWS_FIELD);
    let spent = n + 1 == p.horizon;
    Ok(first_that_fits(p, after.interval, after.wide, spent))
}
