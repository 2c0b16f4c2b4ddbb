// Whether a state that was handed in may be walked on (rules 8.4, of one threshold).

ghost use Rattle.std.specs.Prelude.{◌≡◌, ℕ, ◌+◌, ◌≤◌, ◌&&◌, List, length, take, slice_index};
ghost use Rattle.walk.specs.Numbers.{le?, sum, all_up_to};
ghost use Rattle.walk.specs.Units.{M, mass_limit, wide};
ghost use Rattle.walk.specs.Walk.{below};
ghost use Rattle.walk.specs.Record.{first_above, is_wide};
ghost use Rattle.walk.specs.Soundness.{rounded_fits, boundaries_sound, words_sound};
ghost use Rattle.walk.specs.Weighing.{Weighs};

use crate::{M, MASS_LIMIT, WIDE, Walked, Weighed};

// How far apart the boundaries of a wide walk are.
const WIDE_APART: i64 = WIDE as i64 + 1;

// The most masses that a step rounds.
const ROUNDED_A_DRAW: u64 = WIDE as u64;

// What `weigh_next` adds to each mass, and the number that tells then.
const BELOW_LIMIT: u64 = MASS_LIMIT - 1;

const TWICE_LIMIT: u64 = 2 * MASS_LIMIT;

// What refusal 11 asks of the number of masses rounded, of any record. The product is taken in 64 bits, where it does not overflow.
pub fn rounded_fits(w: Walked, n: u32) -> bool
    ensures { result ≡ rounded_fits n w }
{
    u64::from(w.rounded) <= ROUNDED_A_DRAW * u64::from(n)
}

// What refusal 11 asks of the boundaries and the spent masses, in its order.
pub fn boundaries_sound(w: Walked, n: u32, ones: u32, e: u64) -> bool
    ensures { result ≡ boundaries_sound e n ones w }
{
    let apart = w.apart();
    w.lower >= -1
        && u64::from(w.upper) <= u64::from(n) + 1
        && apart >= 2
        && apart <= WIDE_APART
        && i64::from(w.lower) < i64::from(ones)
        && ones < w.upper
        && w.over <= e
        && w.under <= e
}

// A pass over masses: of none.
pub fn weigh_none() -> Weighed
    ensures { (masses : List ℕ) → Weighs masses 0 result }
{
    Weighed { bits: 0, sum: 0 }
}

// .. and of the next: x is at most 2^43 just when x and x + 2^43 - 1 are both below 2^44. The pass runs at every draw, so it has no branch.
pub fn weigh_next(w: Weighed, x: u64) -> Weighed
    ensures { (masses : List ℕ) (i : ℕ) → slice_index masses i ≡ x → Weighs masses i w → Weighs masses (i + 1) result }
{
    Weighed {
        bits: w.bits | (x | x.wrapping_add(BELOW_LIMIT)),
        sum: w.sum.wrapping_add(x),
    }
}

// .. and of all words.
fn weigh(words: &[u64]) -> Weighed
    ensures { Weighs words.now (length words.now) result }
{
    let mut w = weigh_none();
    for x in words {
        w = weigh_next(w, *x);
    }
    w
}

// Whether three masses make up M: what is missing is counted down, so that nothing overflows.
fn is_whole(live: u64, over: u64, under: u64) -> bool
    ensures { result ≡ le? M (live + over + under) }
{
    M.saturating_sub(live).saturating_sub(over) <= under
}

// What refusal 11 asks of the live masses, at most 769, beside both spent masses.
pub fn masses_sound(w: Weighed, over: u64, under: u64) -> bool
    ensures { (masses : List ℕ) (count : ℕ) → count ≤ wide → Weighs masses count w
        → result ≡ (all_up_to mass_limit (take count masses) && le? M (sum (take count masses) + over + under)) }
{
    w.bits < TWICE_LIMIT && is_whole(w.sum, over, under)
}

// Of any words, where the boundaries are sound: the live ones pass refusal 11. There is one for each live count, or those that are there.
pub fn words_sound(part: &[u64], w: Walked) -> bool
    requires { (w.lower ≡ below (first_above w.lower)) × (first_above w.lower ≤ w.upper) × (w.upper ≤ first_above w.lower + wide) }
    ensures { result ≡ words_sound w part.now }
{
    let words = w.live().min(part.len());
    masses_sound(weigh(&part[..words]), w.over, w.under)
}

// Wide: upper - lower - 1 is 769 (rules 3.7). Of any boundaries.
pub fn is_wide(w: Walked) -> bool
    ensures { result ≡ is_wide w }
{
    w.apart() == WIDE_APART
}
