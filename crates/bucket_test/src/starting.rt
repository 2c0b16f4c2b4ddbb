// What a beginning hands on: ten open records and the words of each part (rules 6.1, 8.3).

ghost use Rattle.std.specs.Prelude.{◌≡◌, ◌*◌, ◌≤◌, length};
ghost use Rattle.walk.specs.Units.{wide};
ghost use Rattle.walk.specs.Record.{start_part};
ghost use Rattle.plan.specs.Plan.{count_limit};
ghost use Rattle.plan.specs.Places.{join_to};
ghost use Rattle.bucket_test.specs.Turn.{open_record, no_walked};
ghost use Rattle.bucket_test.specs.Draw.{ten_of};

use crate::{State, Threshold};
use plan::COUNT_LIMIT;
use walk::starting::start_part;
use walk::{Mark, WIDE, Walked};

// A state before any draw: ten open records that stand so.
pub fn ten_of(walked: Walked) -> State
    ensures { result ≡ ten_of (open_record walked) }
{
    let t = Threshold {
        mark: Mark::Open,
        walked,
    };
    State {
        n: 0,
        ones: 0,
        records: [t; COUNT_LIMIT],
    }
}

// Where no walk stands: a refused beginning hands back zeros in every number, and open marks.
pub fn no_walked() -> Walked
    ensures { result ≡ no_walked }
{
    Walked {
        lower: 0,
        upper: 0,
        over: 0,
        under: 0,
        rounded: 0,
    }
}

// Step 0 in each of so many parts. By index: what a `for` over `chunks_exact_mut` wrote is not known after it.
pub(crate) fn start_words(words: &mut [u64], count: usize)
    requires { (count ≤ count_limit) × (length words.old ≡ wide * count) }
    ensures { words.new ≡ join_to count (λ i. start_part) }
{
    for i in 0..count {
        let at = WIDE * i;
        start_part(&mut words[at..at + WIDE]);
    }
}
