// Reads in which a failure counts as the end of input (rules 9).

ghost use Rattle.std.specs.Prelude.{take};
ghost use Rattle.std.specs.Io.KnownBytes.{Consumes};
ghost use Rattle.io.specs.Counts.{IsPrefixLen};

use std::io::Read;

// One read, and how many bytes it put at the start of buf: none where the input has ended or the read failed.
pub(crate) fn read_some<R: Read>(input: &mut R, buf: &mut [u8]) -> usize
    ensures prefix_len { IsPrefixLen result buf.new }
    ensures given { Consumes (R.remaining input.old) (R.remaining input.new) (take result buf.new) }
{
    match input.read(buf) {
        Ok(n) => n,
        Err(_) => 0,
    }
}

// Reads until buf is full, the input ends or a read fails, and answers how many bytes it put at the start of buf.
pub(crate) fn fill<R: Read>(input: &mut R, buf: &mut [u8]) -> usize
    ensures prefix_len { IsPrefixLen result buf.new }
    ensures given { Consumes (R.remaining input.old) (R.remaining input.new) (take result buf.new) }
{
    let mut done = 0;
    while done < buf.len() {
        let n = read_some(input, &mut buf[done..]);
        if n == 0 {
            break;
        }
        done += n;
    }
    done
}
