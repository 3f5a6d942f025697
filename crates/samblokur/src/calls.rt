// The calls by value: what each leaves at exit, its answer as a report.
// Each call fills its exit itself, and through no `From`: a `State` that is passed by value once more takes its 2,752 bytes of the stack of a call again.
// State and card, list and start stay apart, as C lends them and as the definitions `fresh_reply`, `run_reply` and `turn_reply` take them.
ghost use Rattle.std.specs.Prelude.{◌≡◌};
ghost use Rattle.plexil.specs.Replies.{check_reply, fresh_reply, run_reply, turn_reply};
ghost use Rattle.samblokur.specs.Exits.{check_exit, fresh_exit, run_exit};

use super::reports::{Report, run_report, verdict_report};
use plexil::{Card, Counts, State};

// What a check leaves: the number it returns, the report and the counts.
#[derive(Clone, Copy)]
pub struct CheckExit {
    pub number: u32,
    pub report: Report,
    pub counts: Counts,
}

// What a fresh start, a run or a turn leaves: the number it returns, the report, the state and the turn card.
#[derive(Clone, Copy)]
pub struct TurnExit {
    pub number: u32,
    pub report: Report,
    pub state: State,
    pub card: Card,
}

pub fn check(image: &[u8]) -> CheckExit
    ensures { result ≡ check_exit (check_reply image.now) }
{
    let reply = admit::check(image);
    let verdict = reply.verdict;
    let counts = reply.counts;
    let report = verdict_report(verdict);
    CheckExit {
        number: report.number,
        report,
        counts,
    }
}

pub fn fresh(image: &[u8], state: State, card: Card) -> TurnExit
    ensures { result ≡ fresh_exit (fresh_reply image.now state card) }
{
    let reply = turns::fresh(image, state, card);
    let verdict = reply.verdict;
    let report = verdict_report(verdict);
    let state = reply.state;
    let card = reply.card;
    TurnExit {
        number: report.number,
        report,
        state,
        card,
    }
}

pub fn run(
    image: &[u8],
    state: State,
    card: Card,
    budget: u16,
    list: &mut [u32],
    start: usize,
) -> TurnExit
    ensures { (result ≡ run_exit (run_reply image.now state card budget list.old start).ran)
        × (list.new ≡ (run_reply image.now state card budget list.old start).list) }
{
    let reply = turns::run(image, state, card, budget, list, start);
    let answer = reply.answer;
    let report = run_report(answer, reply.steps, reply.next);
    let state = reply.state;
    let card = reply.card;
    TurnExit {
        number: report.number,
        report,
        state,
        card,
    }
}

pub fn turn(
    image: &[u8],
    state: State,
    card: Card,
    event: &[u8],
    budget: u16,
    list: &mut [u32],
    start: usize,
) -> TurnExit
    ensures { (result ≡ run_exit (turn_reply image.now state card event.now budget list.old start).ran)
        × (list.new ≡ (turn_reply image.now state card event.now budget list.old start).list) }
{
    let reply = turns::turn(image, state, card, event, budget, list, start);
    let answer = reply.answer;
    let report = run_report(answer, reply.steps, reply.next);
    let state = reply.state;
    let card = reply.card;
    TurnExit {
        number: report.number,
        report,
        state,
        card,
    }
}
