// The program but for its write (rules 9): a plan, draws as they come, and one line.

ghost use Rattle.std.specs.Prelude.{◌≡◌, ◌&&◌, length};
ghost use Rattle.std.specs.Io.KnownBytes.{Consumes};
ghost use Rattle.io.specs.Counts.{IsPrefixLen};
ghost use Rattle.walk.specs.Numbers.{lt?};
ghost use Rattle.bucket_test.specs.Draw.{outcome_of};
ghost use Rattle.console.specs.Input.{draws_of};
ghost use Rattle.console.specs.Run.{answer_open, ran};
ghost use Rattle.console.specs.Program.{ComesTo, reached, goes_on, Prints, played, served};

use crate::feeding::feed;
use crate::line::{LINE_BUFFER, last_line, refused_line};
use crate::reading::{fill, read_some};
use crate::running::answer_open;
use bucket_test::Drawn;
use bucket_test::drawing::begin;
use plan::Plan;
use refusals::Refusal;
use std::fs;
use std::io::Read;
use std::ops::ControlFlow;
use std::rt::Files;
use stored_plan::FORM_LIMIT;
use stored_plan::reading::read_plan;
use walk::WIDE;

// The characters that one read gave, and whether to read on: after an `open` answer, and not where there were none, since the input has ended.
fn take_chunk(p: &Plan, d: Drawn, words: &mut [u64], chunk: &mut [u8]) -> ControlFlow<Drawn, Drawn>
    ensures { (outcome_of (reached result) words.new ≡ ran p.now (outcome_of d words.old) (draws_of chunk.old))
        × (goes_on result ≡ lt? 0 (length chunk.old) && answer_open (reached result).answer) }
{
    let some = chunk.len() > 0;
    let drawn = feed(p, d, words, chunk);
    if some && answer_open(drawn.answer) {
        ControlFlow::Continue(drawn)
    } else {
        ControlFlow::Break(drawn)
    }
}

// One read, and the characters that it gave.
fn take_some<R: Read>(
    p: &Plan,
    d: Drawn,
    input: &mut R,
    words: &mut [u64],
) -> ControlFlow<Drawn, Drawn>
    ensures { (t : ComesTo p.now (outcome_of d words.old) (reached result) words.new)
        × Consumes (R.remaining input.old) (R.remaining input.new) t.text }
{
    let mut chunk = [0u8; 4096];
    let n = read_some(input, &mut chunk);
    take_chunk(p, d, words, &mut chunk[..n])
}

// Reads up to an answer that is not `open`, or the end of input. A proved loop has to end: it has more turns than any run uses up.
fn take_all<R: Read>(p: &Plan, d: Drawn, input: &mut R, words: &mut [u64]) -> Drawn
    ensures { (t : ComesTo p.now (outcome_of d words.old) result words.new)
        × Consumes (R.remaining input.old) (R.remaining input.new) t.text }
{
    let mut drawn = d;
    if !answer_open(drawn.answer) {
        return drawn;
    }
    for _turn in 0..u64::MAX {
        match take_some(p, drawn, input, words) {
            ControlFlow::Continue(next) => drawn = next,
            ControlFlow::Break(last) => return last,
        }
    }
    drawn
}

// A test of an accepted plan on the words lent to it, from its beginning to its line.
fn play<R: Read>(p: &Plan, input: &mut R, words: &mut [u64], out: &mut [u8; LINE_BUFFER]) -> usize
    ensures prefix_len { IsPrefixLen result out.new }
    ensures prints { Prints (played p.now words.old) result words.new out.old out.new }
    ensures given { (r : Prints (played p.now words.old) result words.new out.old out.new)
        × Consumes (R.remaining input.old) (R.remaining input.new) r.text }
{
    let begun = begin(p, words);
    let last = take_all(p, begun, input, words);
    last_line(p, last, out)
}

// The program from its plan's bytes to its line: their refusal, or a test, which is lent the first 769 words for each threshold. The text that it
// is fed is what the input gave, which a clause can know of a reader over memory and not of the system's (`given`).
pub fn serve<R: Read>(
    stored: &[u8],
    input: &mut R,
    words: &mut [u64],
    out: &mut [u8; LINE_BUFFER],
) -> usize
    ensures prefix_len { IsPrefixLen result out.new }
    ensures prints { Prints (served stored.now words.old) result words.new out.old out.new }
    ensures given { (r : Prints (served stored.now words.old) result words.new out.old out.new)
        × Consumes (R.remaining input.old) (R.remaining input.new) r.text }
{
    let p = match read_plan(stored) {
        Ok(p) => p,
        Err(refusal) => return refused_line(refusal.number(), out),
    };
    let m = WIDE * p.count as usize;
    if words.len() < m {
        return refused_line(Refusal::Words.number(), out);
    }
    play(&p, input, &mut words[..m], out)
}

// A buffer for the plan's file: one byte more than the longest plan has is enough to tell a longer file (stored_plan/specs/RoundTrip,
// `CutReading`).
pub const PLAN_BUFFER: usize = FORM_LIMIT + 1;

// The bytes of a file at the start of buf, as many as it takes; a file that is missing or cannot be read has none. The toolchain's files have
// names in UTF-8: any other name is taken as the empty one, which no file has.
pub fn load<F: Files>(files: &F, path: &[u8], buf: &mut [u8]) -> usize
    ensures { IsPrefixLen result buf.new }
{
    let name = str::from_utf8(path).unwrap_or("");
    let Ok(mut file) = fs::open(files, name) else {
        return 0;
    };
    fill(&mut file, buf)
}
