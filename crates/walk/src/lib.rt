// The walk of one threshold: its spending, its masses and its boundaries, one step at a time (rules 3).

#![tactic(auto)]

ghost use Rattle.std.specs.Prelude.{◌≡◌, ◌+◌, ◌-◌, ◌≤◌, pos, ◌-ℤ◌};
ghost use Rattle.walk.specs.Units.{wide};
ghost use Rattle.walk.specs.Walk.{below};
ghost use Rattle.walk.specs.Record.{Counted, Ordered, first_above};

mod mass;
pub mod row;
pub mod soundness;
pub mod spending;
pub mod starting;
pub mod step;

// The whole, in units of 1/2^42. It and the numbers below are those of specs/Units.
pub const M: u64 = 1 << 42;

// Thresholds are in millionths.
pub const MILLION: u32 = 1000000;

// The live counts of a wide walk, and the words of one threshold's part.
pub const WIDE: usize = 769;

// The largest live word of a state that is not spoiled.
pub const MASS_LIMIT: u64 = 2 * M;

// The largest horizon, in draws, and the largest allowance.
pub const HORIZON_LIMIT: u32 = 50000;

pub const ALLOWANCE_LIMIT: u64 = M / 2 - 1;

// The portion of its allowance that a side may have spent after some draws.
#[derive(Clone, Copy)]
pub struct Portion {
    pub numerator: u64,
    pub denominator: u64,
}

// How the draws stand to a threshold: open, or settled at a step (rules 6).
#[derive(Clone, Copy)]
pub enum Mark {
    Open,
    Above(u32),
    AtMost(u32),
}

// Where a walk stands after a step: its boundaries, between which the live counts lie, its upper and lower spent mass, and how many new masses
// were rounded so far.
#[derive(Clone, Copy)]
pub struct Walked {
    pub lower: i32,
    pub upper: u32,
    pub over: u64,
    pub under: u64,
    pub rounded: u32,
}

impl Walked {
    // How far the boundaries are apart: taken in 64 bits, where no difference of two boundaries overflows.
    pub(crate) fn apart(&self) -> i64
        ensures { result ≡ pos self.now.upper -ℤ self.now.lower }
    {
        i64::from(self.upper) - i64::from(self.lower)
    }

    // How many counts are live.
    pub(crate) fn live(&self) -> usize
        requires { Ordered self.now }
        ensures { result ≡ self.now.upper - first_above self.now.lower }
    {
        self.apart() as usize - 1
    }

    // The first live count: the lower boundary plus one.
    pub(crate) fn first(&self) -> u32
        requires { Counted self.now.lower }
        ensures { result ≡ first_above self.now.lower }
    {
        (self.lower + 1) as u32
    }

    // The lower boundary after a step that drops so many counts.
    pub(crate) fn raised(&self, by: usize) -> i32
        requires { Counted self.now.lower × (by ≤ wide) }
        ensures { result ≡ below (first_above self.now.lower + by) }
    {
        self.lower + by as i32
    }
}

// What a pass over masses keeps of them: bits that tell whether each is at most 2^43, and, where they are and are not too many, their sum.
#[derive(Clone, Copy)]
pub struct Weighed {
    pub bits: u64,
    pub sum: u64,
}
