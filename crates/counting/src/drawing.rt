// A beginning and a draw (rules 13.1 to 13.3).

ghost use Rattle.std.specs.Prelude.{◌≡◌};
ghost use Rattle.refusals.specs.Refusals.{number_of};
ghost use Rattle.counting.specs.Run.{refused, begun, drawn};

use crate::{Answer, Drawn, Run};
use refusals::Refusal;

// A refusal with a run.
fn refused(refusal: Refusal, run: Run) -> Drawn
    ensures { result ≡ refused (number_of refusal) run }
{
    Drawn {
        answer: Answer::Refused(refusal.number()),
        run,
    }
}

// Beginning a run of stop count h and size n, judged by 13. Any numbers may be handed in; a refusal hands back zeros.
#[tactic(auto, unfolding(crate::specs::Run::begun))]
pub fn begin(h: u32, n: u32) -> Drawn
    ensures { result ≡ begun h n }
{
    let none = Run::default();
    let run = Run {
        stop: h,
        size: n,
        ..none
    };
    if !run.sizes_fit() {
        return refused(Refusal::Run, none);
    }
    Drawn {
        answer: Answer::Open,
        run,
    }
}

// A draw, judged by 13, 9, 10 and 11 in this order. Any run and draw may be handed in; a refusal hands back the run it was given.
pub fn draw(r: Run, d: u8) -> Drawn
    ensures { result ≡ drawn r d }
{
    if let Err(refusal) = r.judge(d) {
        return refused(refusal, r);
    }
    let run = Run {
        taken: r.taken + 1,
        ones: r.ones + u32::from(d),
        ..r
    };
    Drawn {
        answer: run.answer(),
        run,
    }
}
