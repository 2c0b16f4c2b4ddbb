// The entries of counting: a run as it comes in, and with its answer as it goes out.

ghost use Rattle.std.specs.Prelude.{◌≡◌};
ghost use Rattle.counting.specs.Run.{begun, drawn, kind_of, first_of, second_of};
ghost use Rattle.host.specs.Runs.{run_in, run_out};

use crate::HostRun;
use counting::drawing::{begin, draw};
use counting::{Answer, Drawn, Run};

// C has an answer as three numbers: its case, and what the case holds.
fn answer_out(a: Answer) -> (u32, u32, u32)
    ensures { (result.0 ≡ kind_of a) × (result.1 ≡ first_of a) × (result.2 ≡ second_of a) }
{
    match a {
        Answer::Open => (0, 0, 0),
        Answer::Ended(numerator, denominator) => (1, numerator, denominator),
        Answer::Refused(refusal) => (2, refusal, 0),
    }
}

impl From<HostRun> for Run {
    ghost from_gives = { λ h r. r ≡ run_in h };

    fn from(h: HostRun) -> Run {
        Run {
            stop: h.stop,
            size: h.size,
            taken: h.taken,
            ones: h.ones,
        }
    }
}

impl From<Drawn> for HostRun {
    ghost from_gives = { λ d h. h ≡ run_out d };

    fn from(d: Drawn) -> HostRun {
        let (answer, first, second) = answer_out(d.answer);
        let run = d.run;
        HostRun {
            answer,
            first,
            second,
            stop: run.stop,
            size: run.size,
            taken: run.taken,
            ones: run.ones,
        }
    }
}

pub fn host_count_begin(h: u32, n: u32) -> HostRun
    ensures { result ≡ run_out (begun h n) }
{
    begin(h, n).into()
}

pub fn host_count_draw(r: HostRun, d: u8) -> HostRun
    ensures { result ≡ run_out (drawn (run_in r) d) }
{
    draw(r.into(), d).into()
}
