// The tests before a run and before a turn, of which the first broken one refuses.
ghost use Rattle.std.specs.Prelude.{◌≡◌};
ghost use Rattle.plexil.specs.declared.Verdict.TheVariants.{Admitted};
ghost use Rattle.plexil.specs.Check.{verdict};
ghost use Rattle.plexil.specs.Replies.{run_test, turn_test};
ghost use Rattle.plexil.specs.Tested.{tested_of};
ghost use Rattle.plexil.specs.Promises.{IsAdmitted};

use super::kept::good_kept;
use plexil::{Card, RunAnswer, State, Verdict};

// An admitted plan: 30, then 31. The end is the list's.
fn test_admitted(
    image: &[u8],
    state: &State,
    card: Card,
    end: usize,
    start: usize,
) -> Result<(), RunAnswer>
    requires { IsAdmitted image.now }
    ensures { tested_of result ≡ run_test Admitted image.now state.now card end start }
{
    if !good_kept(image, state, card) {
        return Err(RunAnswer::State);
    }
    if end < start {
        return Err(RunAnswer::Place);
    }
    Ok(())
}

// "Every call checks its image first, then 30 .., then 31"
pub(crate) fn run_test(
    image: &[u8],
    state: &State,
    card: Card,
    end: usize,
    start: usize,
) -> Result<(), RunAnswer>
    ensures { tested_of result ≡ run_test (verdict image.now) image.now state.now card end start }
{
    match admit::check(image).verdict {
        Verdict::Admitted => test_admitted(image, state, card, end, start),
        Verdict::Refused(rule, i) => Err(RunAnswer::Refused(rule, i)),
    }
}

// "31 is now tested after 30 and before 20"
// Not inlined: so the states that the tests take leave the stack before the run begins.
#[inline(never)]
pub(crate) fn turn_test(
    image: &[u8],
    state: &State,
    card: Card,
    event: &[u8],
    end: usize,
    start: usize,
) -> Result<(), RunAnswer>
    ensures { tested_of result ≡ turn_test (verdict image.now) image.now state.now card event.now end start }
{
    run_test(image, state, card, end, start)?;
    events::event_answer(image, state, card, event)
}
