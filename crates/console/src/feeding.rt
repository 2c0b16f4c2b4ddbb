// A chunk of characters as it comes, fed to a test (rules 9.1).

ghost use Rattle.std.specs.Prelude.{◌≡◌, ◌++◌, length, drop};
ghost use Rattle.bucket_test.specs.Draw.{outcome_of};
ghost use Rattle.console.specs.Input.{draws_of};
ghost use Rattle.console.specs.Run.{ran};

use crate::input::to_draws;
use crate::running::run;
use bucket_test::Drawn;
use plan::Plan;

// The characters of a chunk, fed to the test after a call's outcome: each draw while the answer is `open`. Draws stand in their place then.
pub(crate) fn feed(p: &Plan, d: Drawn, words: &mut [u64], chunk: &mut [u8]) -> Drawn
    ensures { (outcome_of result words.new ≡ ran p.now (outcome_of d words.old) (draws_of chunk.old))
        × (chunk.new ≡ draws_of chunk.old ++ drop (length (draws_of chunk.old)) chunk.old) }
{
    let m = to_draws(chunk);
    run(p, d, words, &chunk[..m])
}
