// The report of each answer: its number, the record it names, and how the call ended. All are numbers, for C.
ghost use Rattle.std.specs.Prelude.{◌≡◌};
ghost use Rattle.samblokur.specs.Reports.{report_of, verdict_report, run_report};

use admit::rule_number;
use plexil::{RunAnswer, Verdict};

// What a call tells its host beside what it changes. ending: 0 refused; 1 Quiet, or an accepted check or fresh start; 2 Spent.
#[repr(C)]
#[derive(Clone, Copy)]
pub struct Report {
    pub number: u32,
    pub record: u32,
    pub ending: u32,
    pub steps: u32,
    pub next: usize,
}

// A refusal, and the record or entry that it names.
fn refused(number: u32, named: u16, steps: u16, next: usize) -> Report
    ensures { result ≡ report_of number named 0 steps next }
{
    Report {
        number,
        record: named as u32,
        ending: 0,
        steps: steps as u32,
        next,
    }
}

fn done(ending: u32, steps: u16, next: usize) -> Report
    ensures { result ≡ report_of 0 0 ending steps next }
{
    Report {
        number: 0,
        record: 0,
        ending,
        steps: steps as u32,
        next,
    }
}

// The report of a check, and of a fresh start.
pub fn verdict_report(v: Verdict) -> Report
    ensures { result ≡ verdict_report v }
{
    match v {
        Verdict::Admitted => done(1, 0, 0),
        Verdict::Refused(rule, i) => refused(rule_number(rule), i, 0, 0),
    }
}

// The report of a run, and of a turn.
pub fn run_report(answer: RunAnswer, steps: u16, next: usize) -> Report
    ensures { result ≡ run_report answer steps next }
{
    match answer {
        RunAnswer::Refused(rule, i) => refused(rule_number(rule), i, steps, next),
        RunAnswer::State => refused(30, 0, steps, next),
        RunAnswer::Place => refused(31, 0, steps, next),
        RunAnswer::Busy => refused(20, 0, steps, next),
        RunAnswer::Shape => refused(21, 0, steps, next),
        RunAnswer::Turn => refused(22, 0, steps, next),
        RunAnswer::Entry(k) => refused(23, k, steps, next),
        RunAnswer::Twice(k) => refused(24, k, steps, next),
        RunAnswer::NotAwaited(k) => refused(25, k, steps, next),
        RunAnswer::NoRoom => refused(32, 0, steps, next),
        RunAnswer::Spent => done(2, steps, next),
        RunAnswer::Quiet => done(1, steps, next),
    }
}
