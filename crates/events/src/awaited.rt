// "25 NotAwaited: return for a node not Executing or Failing, or marked already"
ghost use Rattle.std.specs.Prelude.{◌≡◌};
ghost use Rattle.plexil.specs.Lists.{first};
ghost use Rattle.plexil.specs.Macro.{entry_count, awaited, not_awaited};
ghost use Rattle.plexil.specs.Searches.{found_of};

use super::entries::{entry_form, index};
use super::shape::entry_count;
use form::is_awaiting;
use places::status_at;
use plexil::{State, first, get_or};

fn is_awaited(state: &State, i: u16) -> bool
    ensures { result ≡ awaited state.now i }
{
    is_awaiting(status_at(&state.status, i)) && get_or(&state.mark, i, 0) == 0
}

fn not_awaited(state: &State, event: &[u8], k: u16) -> bool
    ensures { result ≡ not_awaited state.now event.now k }
{
    entry_form(event, k) == 2 && !is_awaited(state, index(event, k))
}

pub(crate) fn first_not_awaited(state: &State, event: &[u8]) -> Option<u16>
    ensures { found_of result ≡ first (entry_count event.now) (not_awaited state.now event.now) }
{
    first(entry_count(event), |k| not_awaited(state, event, k))
}
