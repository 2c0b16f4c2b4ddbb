// Why a call is refused.

#![tactic(auto)]

ghost use Rattle.std.specs.Prelude.{◌≡◌};
ghost use Rattle.refusals.specs.Refusals.{number_of, refusal_in, unless};

// The refusals, by their numbers (rules 8.1).
#[derive(Clone, Copy, Debug, PartialEq, Eq)]
pub enum Refusal {
    Counts = 1,
    Thresholds = 2,
    Allowances = 3,
    Times = 4,
    Buckets = 5,
    Cover = 6,
    Form = 7,
    Words = 8,
    Draw = 9,
    Ended = 10,
    Spoiled = 11,
    Room = 12,
    Run = 13,
    TooClose = 14,
    SavedForm = 15,
    Points = 16,
    PointsInForm = 17,
}

impl Refusal {
    pub fn number(self) -> u32
        ensures { result ≡ number_of self }
    {
        self as u32
    }
}

// Refuses unless a rule is kept.
pub fn ensure(kept: bool, refusal: Refusal) -> Result<(), Refusal>
    ensures { refusal_in result ≡ unless kept (number_of refusal) }
{
    if kept { Ok(()) } else { Err(refusal) }
}
