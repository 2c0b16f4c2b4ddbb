// The line that is printed (rules 9.2).

ghost use Rattle.std.specs.Prelude.{◌≡◌, ◌∷◌, ◌+◌, ◌≤◌, length, take};
ghost use Rattle.io.specs.Counts.{IsPrefixLen};
ghost use Rattle.bucket_test.specs.Answers.{word_of, bucket_of};
ghost use Rattle.console.specs.Ascii.{space};
ghost use Rattle.console.specs.Line.{decimal, refused_line, line_of, line_after, Puts};

use crate::ascii::{NEWLINE, SPACE};
use bucket_test::drawing::report_on;
use bucket_test::{Answer, Drawn, Report, State};
use plan::Plan;

// A buffer for a line: longer than the longest.
pub const LINE_BUFFER: usize = 64;

// Puts bytes at a place of the line and answers the next place.
fn put(out: &mut [u8], at: usize, bytes: &[u8]) -> usize
    requires { at + length bytes.now ≤ length out.old }
    ensures { Puts bytes.now at result out.old out.new }
{
    out[at..at + bytes.len()].copy_from_slice(bytes);
    at + bytes.len()
}

// A space, and the number in decimal.
fn put_number(out: &mut [u8], at: usize, number: u32) -> usize
    requires { at + 11 ≤ length out.old }
    ensures { (result ≤ at + 11) × Puts (space ∷ decimal number) at result out.old out.new }
{
    let mut text = [0u8; 20];
    let k = io::decimal(u64::from(number), &mut text);
    let next = put(out, at, &[SPACE]);
    put(out, next, &text[..k])
}

fn word_of(a: Answer) -> &'static [u8]
    ensures { (result.now ≡ word_of a) × (length result.now ≤ 7) }
{
    match a {
        Answer::Open => b"open",
        Answer::Decided(_) => b"decided",
        Answer::Crossed => b"crossed",
        Answer::Wide => b"wide",
        Answer::Spent => b"spent",
        Answer::Refused(_) => b"refused",
    }
}

// The word of an answer begins the line.
fn put_word(out: &mut [u8], a: Answer) -> usize
    requires { 7 ≤ length out.old }
    ensures { (result ≤ 7) × Puts (word_of a) 0 result out.old out.new }
{
    put(out, 0, word_of(a))
}

// The number of the bucket, 0 unless decided.
fn bucket_of(a: Answer) -> u32
    ensures { result ≡ bucket_of a }
{
    match a {
        Answer::Decided(bucket) => bucket,
        _ => 0,
    }
}

// `refused`, the number, and a newline.
pub(crate) fn refused_line(number: u32, out: &mut [u8; LINE_BUFFER]) -> usize
    ensures prefix_len { IsPrefixLen result out.new }
    ensures upper_bound { (result ≤ 64) × Puts (refused_line number) 0 result out.old out.new }
{
    let a = Answer::Refused(number);
    let at = put_word(out, a);
    let end = put_number(out, at, number);
    put(out, end, &[NEWLINE])
}

// The line of a report on a state, of any values.
pub(crate) fn line_of(s: State, r: Report, out: &mut [u8; LINE_BUFFER]) -> usize
    ensures prefix_len { IsPrefixLen result out.new }
    ensures upper_bound { (result ≤ 64) × Puts (line_of s r) 0 result out.old out.new }
{
    let a = r.answer;
    if let Answer::Refused(number) = a {
        return refused_line(number, out);
    }
    let bucket = bucket_of(a);
    let at = put_word(out, a);
    let at1 = put_number(out, at, bucket);
    let at2 = put_number(out, at1, s.n);
    let at3 = put_number(out, at2, s.ones);
    let at4 = put_number(out, at3, r.low);
    let at5 = put_number(out, at4, r.high);
    put(out, at5, &[NEWLINE])
}

// The line of an outcome: its answer, and n, S and interval of its state.
pub fn last_line(p: &Plan, d: Drawn, out: &mut [u8; LINE_BUFFER]) -> usize
    ensures prefix_len { IsPrefixLen result out.new }
    ensures upper_bound { (result ≤ 64) × Puts (line_after p.now d) 0 result out.old out.new }
{
    let v = report_on(p, &d.state);
    let r = Report {
        answer: d.answer,
        low: v.low,
        high: v.high,
    };
    line_of(d.state, r, out)
}
