// A state and an answer as they come in and as they go out.

ghost use Rattle.std.specs.Prelude.{◌≡◌, map};
ghost use Rattle.saved_test.specs.Reading.{loaded_as};
ghost use Rattle.host.specs.States.{mark_in, answer_case, answer_number, record_in, record_out, state_in, drawn_out, loaded_out, report_out};

use crate::writings::refusal_of;
use crate::{HostRecord, HostReport, HostState, HostTest};
use bucket_test::starting::{no_walked, ten_of};
use bucket_test::{Answer, Drawn, Report, State, Threshold};
use plan::COUNT_LIMIT;
use refusals::Refusal;
use saved_test::marks::code_of;
use walk::{Mark, Walked};

// C has a mark, and an answer, as two numbers: its case, and what the case holds.
fn mark_in(mark: u32, step: u32) -> Mark
    ensures { result ≡ mark_in mark step }
{
    match mark {
        1 => Mark::Above(step),
        2 => Mark::AtMost(step),
        _ => Mark::Open,
    }
}

fn answer_out(a: Answer) -> (u32, u32)
    ensures { (result.0 ≡ answer_case a) × (result.1 ≡ answer_number a) }
{
    match a {
        Answer::Open => (0, 0),
        Answer::Decided(bucket) => (1, bucket),
        Answer::Crossed => (2, 0),
        Answer::Wide => (3, 0),
        Answer::Spent => (4, 0),
        Answer::Refused(refusal) => (5, refusal),
    }
}

impl From<HostRecord> for Threshold {
    ghost from_gives = { λ r t. t ≡ record_in r };

    fn from(r: HostRecord) -> Threshold {
        Threshold {
            mark: mark_in(r.mark, r.step),
            walked: Walked {
                lower: r.lower,
                upper: r.upper,
                over: r.over,
                under: r.under,
                rounded: r.rounded,
            },
        }
    }
}

impl From<Threshold> for HostRecord {
    ghost from_gives = { λ t r. r ≡ record_out t };

    fn from(t: Threshold) -> HostRecord {
        let w = t.walked;
        let (mark, step) = code_of(t.mark);
        HostRecord {
            mark,
            step,
            lower: w.lower,
            upper: w.upper,
            over: w.over,
            under: w.under,
            rounded: w.rounded,
        }
    }
}

fn records_in(rs: [HostRecord; COUNT_LIMIT]) -> [Threshold; COUNT_LIMIT]
    ensures { result ≡ map record_in rs }
{
    rs.map(Threshold::from)
}

fn records_out(ts: [Threshold; COUNT_LIMIT]) -> [HostRecord; COUNT_LIMIT]
    ensures { result ≡ map record_out ts }
{
    ts.map(HostRecord::from)
}

impl From<HostState> for State {
    ghost from_gives = { λ h s. s ≡ state_in h };

    fn from(h: HostState) -> State {
        State {
            n: h.n,
            ones: h.ones,
            records: records_in(h.records),
        }
    }
}

impl From<Drawn> for HostState {
    ghost from_gives = { λ d h. h ≡ drawn_out d };

    fn from(d: Drawn) -> HostState {
        let (answer, number) = answer_out(d.answer);
        let s = d.state;
        HostState {
            answer,
            number,
            n: s.n,
            ones: s.ones,
            records: records_out(s.records),
        }
    }
}

impl From<Result<State, Refusal>> for HostTest {
    ghost from_gives = { λ r t. t ≡ loaded_out (loaded_as r) };

    fn from(r: Result<State, Refusal>) -> HostTest {
        let refusal = refusal_of(r);
        let s = r.unwrap_or(ten_of(no_walked()));
        HostTest {
            refusal,
            n: s.n,
            ones: s.ones,
            records: records_out(s.records),
        }
    }
}

impl From<Report> for HostReport {
    ghost from_gives = { λ r h. h ≡ report_out r };

    fn from(r: Report) -> HostReport {
        let (answer, number) = answer_out(r.answer);
        HostReport {
            answer,
            number,
            low: r.low,
            high: r.high,
        }
    }
}
