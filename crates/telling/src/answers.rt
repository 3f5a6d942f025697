// The names and numbers of verdicts and answers, each after a space.
// Each is told in a type of this crate: a `Display` of plexil's own types would make the words of two test programs a promise of the library.
use admit::rule_number;
use plexil::{Ran, RunAnswer, Verdict};
use std::fmt;

#[derive(Clone, Copy)]
pub struct Judged(pub Verdict);

impl fmt::Display for Judged {
    fn fmt<W: fmt::Write>(&self, f: &mut fmt::Formatter<W>) -> fmt::Result {
        match self.0 {
            Verdict::Admitted => f.write_str(" admitted"),
            Verdict::Refused(rule, i) => write!(f, " {} {i}", rule_number(rule)),
        }
    }
}

// A refusal as its number and record, 0 where none is named; else the answer's name.
#[derive(Clone, Copy)]
struct Answered(RunAnswer);

impl fmt::Display for Answered {
    fn fmt<W: fmt::Write>(&self, f: &mut fmt::Formatter<W>) -> fmt::Result {
        match self.0 {
            RunAnswer::Refused(rule, i) => write!(f, " {} {i}", rule_number(rule)),
            RunAnswer::State => f.write_str(" 30 0"),
            RunAnswer::Place => f.write_str(" 31 0"),
            RunAnswer::Busy => f.write_str(" 20 0"),
            RunAnswer::Shape => f.write_str(" 21 0"),
            RunAnswer::Turn => f.write_str(" 22 0"),
            RunAnswer::Entry(k) => write!(f, " 23 {k}"),
            RunAnswer::Twice(k) => write!(f, " 24 {k}"),
            RunAnswer::NotAwaited(k) => write!(f, " 25 {k}"),
            RunAnswer::NoRoom => f.write_str(" 32 0"),
            RunAnswer::Spent => f.write_str(" spent"),
            RunAnswer::Quiet => f.write_str(" quiet"),
        }
    }
}

// How a run or a turn ended and after how many steps.
#[derive(Clone, Copy)]
pub struct Ended<'a>(pub &'a Ran);

impl<'a> fmt::Display for Ended<'a> {
    fn fmt<W: fmt::Write>(&self, f: &mut fmt::Formatter<W>) -> fmt::Result {
        write!(f, "{} {}", Answered(self.0.answer), self.0.steps)
    }
}
