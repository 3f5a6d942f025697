// A run: "steps until Quiet, or answers Spent if its budget .. is used and a rule still applies, or else NoRoom".
ghost use Rattle.std.specs.Prelude.{◌≡◌, ◌≤◌, length};
ghost use Rattle.plexil.specs.Quiescence.{run as run_of};
ghost use Rattle.plexil.specs.Replies.{has_run};
ghost use Rattle.plexil.specs.ReplyPromises.{RunPermits};
ghost use Rattle.plexil.specs.Promises.{IsAdmitted, IsKept};
ghost use Rattle.turns.specs.Ended.{ran_to, unrun};

use super::tested::run_test;
use micro::Stepped;
use plexil::{Card, Ran, RunAnswer, State};

// The reply of a run that ended: the serial stays, the phase is 1 exactly after Quiet.
fn ended(answer: RunAnswer, phase: u32, steps: u16, next: usize, state: State, card: Card) -> Ran
    ensures { result ≡ ran_to answer phase steps next state card }
{
    Ran {
        answer,
        steps,
        next,
        state,
        card: Card { phase, ..card },
    }
}

// No plainer as a call of ended: a refusal leaves the card as it was, phase and all.
// "refusals but 32 answer 0 and the given start place"
pub(crate) fn refused(answer: RunAnswer, start: usize, state: State, card: Card) -> Ran
    ensures { result ≡ unrun answer start state card }
{
    Ran {
        answer,
        steps: 0,
        next: start,
        state,
        card,
    }
}

// The state comes lent, and is stepped where it stands: by value it would stand on the stack once more.
// Inlined, in both of its callers: so what it keeps shares the stack of what they need before it.
#[inline(always)]
pub(crate) fn run_steps(
    image: &[u8],
    state: &mut State,
    card: Card,
    budget: u16,
    list: &mut [u32],
    start: usize,
) -> Ran
    requires { IsAdmitted image.now × IsKept image.now state.old × (start ≤ length list.old) }
    ensures { (result ≡ (has_run card (run_of image.now state.old budget list.old start)).ran)
        × (list.new ≡ (has_run card (run_of image.now state.old budget list.old start)).list) }
{
    let mut next = start;
    for steps in 0..budget {
        match micro::step(image, state, &mut list[next..]) {
            Stepped::Quiet => return ended(RunAnswer::Quiet, 1, steps, next, *state, card),
            Stepped::NoRoom => return ended(RunAnswer::NoRoom, 0, steps, next, *state, card),
            Stepped::Done(words, after) => {
                *state = after;
                next += words as usize;
            }
        }
    }
    if micro::is_quiet(image, &state.lent()) {
        return ended(RunAnswer::Quiet, 1, budget, next, *state, card);
    }
    ended(RunAnswer::Spent, 0, budget, next, *state, card)
}

// run and turn test and then do run_steps: what may not change, both are public, with RunPermits and TurnPermits; between, a turn has its event enter.
pub fn run(
    image: &[u8],
    mut state: State,
    card: Card,
    budget: u16,
    list: &mut [u32],
    start: usize,
) -> Ran
    ensures { RunPermits image.now state card budget list.old start result list.new }
{
    if let Err(a) = run_test(image, &state, card, list.len(), start) {
        return refused(a, start, state, card);
    }
    run_steps(image, &mut state, card, budget, list, start)
}
