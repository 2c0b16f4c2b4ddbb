// The characters of standard input as draws (rules 9.1).

ghost use Rattle.std.specs.Prelude.{◌≡◌, ◌++◌, length, drop};
ghost use Rattle.io.specs.Counts.{IsPrefixLen};
ghost use Rattle.console.specs.Input.{draw_of, draws_of};

use crate::ascii::{DIGIT_0, DIGIT_1, NEWLINE};

// `0` and `1` are draws; any other character is no draw.
fn draw_of(c: u8) -> u8
    ensures { result ≡ draw_of c }
{
    if c == DIGIT_0 {
        return 0;
    }
    if c == DIGIT_1 {
        return 1;
    }
    2
}

// Turns characters into draws where they stand, newlines skipped, and answers how many there are; what stands behind the draws is kept.
pub(crate) fn to_draws(chunk: &mut [u8]) -> usize
    ensures prefix_len { IsPrefixLen result chunk.new }
    ensures value { (result ≡ length (draws_of chunk.old))
        × (chunk.new ≡ draws_of chunk.old ++ drop result chunk.old) }
{
    let mut at = 0;
    for i in 0..chunk.len() {
        let c = chunk[i];
        if c != NEWLINE {
            chunk[at] = draw_of(c);
            at += 1;
        }
    }
    at
}
