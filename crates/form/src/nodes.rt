// What stands at a node: "codes are in range", the parent table, the node's type, its mark.
ghost use Rattle.std.specs.Prelude.{◌≡◌};
ghost use Rattle.plexil.specs.Form.{good_mark, good_place};

use super::statuses::{allowed, is_awaiting, of_type};
use places::{parent_status, status_at};
use plexil::{State, get_or};

// A mark stands only at a command that is Executing or Failing.
fn good_mark(image: &[u8], state: &State, i: u16) -> bool
    ensures { result ≡ good_mark image.now state.now i }
{
    let m = get_or(&state.mark, i, 0);
    if m == 0 {
        return true;
    }
    m == 1 && image::node_type(image, i) == 1 && is_awaiting(status_at(&state.status, i))
}

// "codes are in range": the C interface has them as bytes, so that a state from outside can hold any.
pub(crate) fn good_place(image: &[u8], state: &State, i: u16) -> bool
    ensures { result ≡ good_place image.now state.now i }
{
    let c = status_at(&state.status, i);
    get_or(&state.status, i, 0) < 7
        && get_or(&state.outcome, i, 0) < 4
        && get_or(&state.failure, i, 0) < 6
        && allowed(parent_status(image, &state.status, i), c)
        && of_type(image, i, c)
        && good_mark(image, state, i)
}
