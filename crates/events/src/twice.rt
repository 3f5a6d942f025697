// "24 Twice: one lookup or node named twice", "the later one"
ghost use Rattle.std.specs.Prelude.{◌≡◌, nat_lt};
ghost use Rattle.plexil.specs.Lists.{first};
ghost use Rattle.plexil.specs.Macro.{entry_count, form, names_same, named_before};
ghost use Rattle.plexil.specs.Searches.{found_of};

use super::entries::{entry_form, index};
use super::shape::entry_count;
use plexil::{any_below, first};

// Forms 0 and 1 name a lookup, so that one lookup's value and its Unknown are the same lookup.
fn names_lookup(event: &[u8], k: u16) -> bool
    ensures { result ≡ nat_lt (form event.now k) 2 }
{
    entry_form(event, k) < 2
}

// Entry j names the lookup or the node that entry k names.
fn names_same(event: &[u8], k: u16, j: u16) -> bool
    ensures { result ≡ names_same event.now k j }
{
    index(event, j) == index(event, k) && names_lookup(event, j) == names_lookup(event, k)
}

fn named_before(event: &[u8], k: u16) -> bool
    ensures { result ≡ named_before event.now k }
{
    any_below(k, |j| names_same(event, k, j))
}

pub(crate) fn first_twice(event: &[u8]) -> Option<u16>
    ensures { found_of result ≡ first (entry_count event.now) (named_before event.now) }
{
    first(entry_count(event), |k| named_before(event, k))
}
