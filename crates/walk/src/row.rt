// The rules of a step, on the words of one threshold's part (rules 3.3 to 3.6).

ghost use Rattle.std.specs.Prelude.{◌≡◌, ℕ, ◌+◌, ◌-◌, ◌<◌, ◌≤◌, true, List, ◌++◌, length, take, drop, replicate};
ghost use Rattle.std.specs.Iterator.{UpTo, AlwaysYields};
ghost use Rattle.walk.specs.Numbers.{sum, all_up_to};
ghost use Rattle.walk.specs.Units.{million, wide, mass_limit};
ghost use Rattle.walk.specs.Row.{new_masses, roundings, kept, dropped};

use crate::mass::mass_up;

// How many of the new masses join the spent mass of a side, and what that is then.
#[derive(Clone, Copy)]
struct Absorbed {
    pub count: usize,
    pub spent: u64,
}

// Where the new masses are cut at both ends, and both spent masses then.
#[derive(Clone, Copy)]
pub(crate) struct Cut {
    pub hi: usize,
    pub lo: usize,
    pub over: u64,
    pub under: u64,
}

// New masses, in place (rules 3.3): n live masses become n + 1 new ones; how many of them were rounded. `advance` keeps what it and the
// others here require.
pub(crate) fn spread(part: &mut [u64], n: usize, a: u64) -> u32
    requires { (n < length part.old) × (n < wide) × (a ≤ million) × (all_up_to mass_limit (take n part.old) ≡ true) }
    ensures { (result ≡ roundings a (take n part.old))
        × (part.new ≡ new_masses a (take n part.old) ++ drop (n + 1) part.old) }
{
    let mut prev: u64 = 0;
    let mut rounded: u32 = 0;
    for x in &mut part[..n] {
        let old = *x;
        let new = mass_up(a, old, prev);
        *x = new.mass;
        rounded += new.rounding;
        prev = old;
    }
    let last = mass_up(a, 0, prev);
    part[n] = last.mass;
    rounded + last.rounding
}

// The new masses of one end, from outside in (rules 3.4, 3.5), join the spent mass of that side as long as it stays at most e.
fn absorb<'a, I: Iterator<Item = &'a u64> + Drop>(masses: I, spent: u64, e: u64) -> Absorbed
    requires can { I.can_next masses }
    requires few { UpTo (I.remaining masses) wide }
    requires allowed { spent ≤ e }
    ensures { (xs : List ℕ) → AlwaysYields I.next_gives (λ x. x.now) masses xs
        → (result.count ≡ dropped e spent xs) × (result.spent ≡ spent + sum (take result.count xs)) }
{
    let mut absorbed = Absorbed { count: 0, spent };
    for mass in masses {
        if *mass > e - absorbed.spent {
            break;
        }
        absorbed.spent += *mass;
        absorbed.count += 1;
    }
    absorbed
}

// Every word from k on becomes zero (rules 5.1).
pub fn clear_from(part: &mut [u64], k: usize)
    requires { k ≤ length part.old }
    ensures { part.new ≡ take k part.old ++ replicate (length part.old - k) 0 }
{
    part[k..].fill(0);
}

// Boundaries and spent masses (rules 3.4 to 3.6) on the first m words: what lies between the boundaries moves to the front.
pub(crate) fn trim(part: &mut [u64], m: usize, over: u64, under: u64, e: u64) -> Cut
    requires { (m ≤ length part.old) × (m ≤ wide) × (over ≤ e) × (under ≤ e) × (e + e < sum (take m part.old) + over + under) }
    ensures { (result.hi ≡ kept e over (take m part.old))
        × (result.lo ≡ dropped e under (take m part.old))
        × (result.over ≡ over + sum (drop result.hi (take m part.old)))
        × (result.under ≡ under + sum (take result.lo (take m part.old)))
        × (part.new ≡ take (result.hi - result.lo) (drop result.lo part.old) ++ drop (result.hi - result.lo) part.old) }
{
    let top = absorb(part[..m].iter().rev(), over, e);
    let bottom = absorb(part[..m].iter(), under, e);
    let hi = m - top.count;
    let lo = bottom.count;
    // Most steps leave the lower boundary where it is, and copy nothing.
    if lo > 0 {
        part.copy_within(lo..hi, 0);
    }
    Cut {
        hi,
        lo,
        over: top.spent,
        under: bottom.spent,
    }
}
