// "Events": refusals 20 to 25 in order, and what an accepted event changes.
// The phase of a card, tags and marks are numbers, and a state and its card are two: the C interface, C lends them so. A node type is a number: what may
// not change, image::node_type, a public function, answers the byte.
#![tactic(auto, unfolding(plexil::specs::Lists::opened, plexil::specs::Macro::opened, plexil::specs::Records::is_command, plexil::specs::Places::mark_at))]

mod answers;
mod awaited;
mod card;
mod enter;
mod entries;
mod shape;
mod twice;
mod wrong;

ghost use Rattle.std.specs.Prelude.{◌≡◌};
ghost use Rattle.plexil.specs.Macro.{event_answer};
ghost use Rattle.plexil.specs.Tested.{tested_of};

use answers::entries_answer;
pub use card::card_after;
pub use enter::entered;
use plexil::{Card, RunAnswer, State};
use shape::{event_serial, good_shape};

pub fn event_answer(image: &[u8], state: &State, card: Card, event: &[u8]) -> Result<(), RunAnswer>
    ensures { tested_of result ≡ event_answer image.now state.now card event.now }
{
    if card.phase != 1 {
        return Err(RunAnswer::Busy);
    }
    if !good_shape(event) {
        return Err(RunAnswer::Shape);
    }
    if event_serial(event) != card.serial {
        return Err(RunAnswer::Turn);
    }
    entries_answer(image, state, event)
}
