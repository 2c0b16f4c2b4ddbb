// What a run is judged by, and its answer (rules 13.2, 13.3).

ghost use Rattle.std.specs.Prelude.{◌≡◌, ◌≤◌, ◌∷◌, [], not};
ghost use Rattle.refusals.specs.Refusals.{refusal_in, unless, first_refusal};
ghost use Rattle.counting.specs.Tests.{le?};
ghost use Rattle.counting.specs.Run.{size_limit, sizes_fit, is_over, is_sound, answer_of};

use crate::{Answer, Run, SIZE_LIMIT};
use refusals::{Refusal, ensure};

impl Run {
    // Not refused by 13: of any numbers.
    pub(crate) fn sizes_fit(&self) -> bool
        ensures { result ≡ sizes_fit self.now.stop self.now.size }
    {
        1 <= self.stop && self.stop < self.size && self.size <= SIZE_LIMIT
    }

    // Refused by 10. Judged after 13, so that there is a draw n - 1.
    fn is_over(&self) -> bool
        requires { 1 ≤ self.now.size }
        ensures { result ≡ is_over self.now }
    {
        self.ones == self.stop || self.taken == self.size - 1
    }

    // Not refused by 11: of any run.
    fn is_sound(&self) -> bool
        ensures { result ≡ is_sound self.now }
    {
        self.taken < self.size && self.ones <= self.stop && self.ones <= self.taken
    }

    // Whether a draw may be taken, by 13, 9, 10 and 11 in this order: any run and draw may be handed in.
    pub(crate) fn judge(&self, d: u8) -> Result<(), Refusal>
        ensures { refusal_in result ≡ first_refusal (
            unless (sizes_fit self.now.stop self.now.size) 13 ∷ unless (le? d 1) 9 ∷ unless (not (is_over self.now)) 10 ∷ unless (is_sound self.now) 11 ∷ []) }
    {
        ensure(self.sizes_fit(), Refusal::Run)?;
        ensure(d <= 1, Refusal::Draw)?;
        ensure(!self.is_over(), Refusal::Ended)?;
        ensure(self.is_sound(), Refusal::Spoiled)
    }

    // The answer to a run after a draw. Where l = n - 1, one more than the ones must fit.
    pub(crate) fn answer(&self) -> Answer
        requires { (1 ≤ self.now.size) × (self.now.ones ≤ size_limit) }
        ensures { result ≡ answer_of self.now }
    {
        if self.ones == self.stop {
            Answer::Ended(self.stop, self.taken)
        } else if self.taken == self.size - 1 {
            Answer::Ended(self.ones + 1, self.size)
        } else {
            Answer::Open
        }
    }
}
