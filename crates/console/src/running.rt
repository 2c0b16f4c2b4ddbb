// A run of draws (rules 6.4).

ghost use Rattle.std.specs.Prelude.{◌≡◌};
ghost use Rattle.bucket_test.specs.Draw.{outcome_of};
ghost use Rattle.console.specs.Run.{answer_open, ran};

use bucket_test::drawing::draw;
use bucket_test::{Answer, Drawn};
use plan::Plan;

// The answer is `open`: neither ended nor refused.
pub(crate) fn answer_open(a: Answer) -> bool
    ensures { result ≡ answer_open a }
{
    matches!(a, Answer::Open)
}

// A run of draws after a call's outcome: each while the answer is `open`. Of any plan, outcome, words and draws. It is no entry: draws before
// a refused one were taken.
pub(crate) fn run(p: &Plan, d: Drawn, words: &mut [u64], draws: &[u8]) -> Drawn
    ensures { outcome_of result words.new ≡ ran p.now (outcome_of d words.old) draws.now }
{
    let mut drawn = d;
    for &bit in draws {
        if !answer_open(drawn.answer) {
            return drawn;
        }
        drawn = draw(p, drawn.state, words, bit);
    }
    drawn
}
