// "Fresh: node 0 Waiting, others Inactive, .. serial 0, Running".
ghost use Rattle.plexil.specs.ReplyPromises.{FreshPermits};

use plexil::{Card, Started, State, Verdict};

pub fn fresh(image: &[u8], state: State, card: Card) -> Started
    ensures { FreshPermits image.now state card result }
{
    match admit::check(image).verdict {
        Verdict::Admitted => Started {
            verdict: Verdict::Admitted,
            state: places::fresh_state(image),
            card: Card {
                serial: 0,
                phase: 0,
            },
        },
        Verdict::Refused(rule, i) => Started {
            verdict: Verdict::Refused(rule, i),
            state,
            card,
        },
    }
}
