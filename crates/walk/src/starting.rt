// Step 0 of a walk, as a record and a part of the words hold it (rules 3.2, 5.1).

ghost use Rattle.std.specs.Prelude.{◌≡◌, length};
ghost use Rattle.walk.specs.Units.{wide};
ghost use Rattle.walk.specs.Record.{start_walked, start_part};

use crate::{M, Walked};

// Boundaries 1 and -1, and nothing spent.
pub fn start_walked() -> Walked
    ensures { result ≡ start_walked }
{
    Walked {
        lower: -1,
        upper: 1,
        over: 0,
        under: 0,
        rounded: 0,
    }
}

// Count 0 has the whole mass. For `bucket_test` only, which lends a part of 769 words.
pub fn start_part(part: &mut [u64])
    requires { length part.old ≡ wide }
    ensures { part.new ≡ start_part }
{
    part.fill(0);
    part[0] = M;
}
