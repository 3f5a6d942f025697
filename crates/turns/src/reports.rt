// A turn, one call per report: the event enters and the run begins; "a refusal of either's input leaves everything, the event included".
ghost use Rattle.plexil.specs.ReplyPromises.{TurnPermits};

use super::runs::{refused, run_steps};
use super::tested::turn_test;
use plexil::{Card, Ran, State};

pub fn turn(
    image: &[u8],
    mut state: State,
    card: Card,
    event: &[u8],
    budget: u16,
    list: &mut [u32],
    start: usize,
) -> Ran
    ensures { TurnPermits image.now state card event.now budget list.old start result list.new }
{
    if let Err(a) = turn_test(image, &state, card, event, list.len(), start) {
        return refused(a, start, state, card);
    }
    state = events::entered(image, state, event);
    let after = events::card_after(card);
    run_steps(image, &mut state, after, budget, list, start)
}
