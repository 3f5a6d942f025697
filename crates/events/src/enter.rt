// "An accepted event changes lookups and marks".
ghost use Rattle.std.specs.Prelude.{◌≡◌};
ghost use Rattle.plexil.specs.Macro.{form, form_of, entry_count, with_lookup, with_mark, enter, entered};

use super::entries::{entry_bits, entry_form, index};
use super::shape::entry_count;
use places::known_cell;
use plexil::{Cell, State};

// No plainer as one with with_mark: the two share the state that goes through, and no array or test.
fn with_lookup(mut s: State, l: u16, c: Cell) -> State
    ensures { result ≡ with_lookup s l c }
{
    let l = l as usize;
    if l < 64 {
        s.looktags[l] = c.tag;
        s.lookbits[l] = c.bits;
    }
    s
}

fn with_mark(mut s: State, i: u16) -> State
    ensures { result ≡ with_mark s i }
{
    if i < 256 {
        s.mark[i as usize] = 1;
    }
    s
}

fn enter(image: &[u8], event: &[u8], k: u16, s: State) -> State
    ensures { result ≡ enter image.now event.now k (form_of (form event.now k)) s }
{
    let i = index(event, k);
    match entry_form(event, k) {
        0 => with_lookup(
            s,
            i,
            known_cell(image::look_kind(image, i), entry_bits(event, k)),
        ),
        1 => with_lookup(s, i, Cell { tag: 0, bits: 0 }),
        _ => with_mark(s, i),
    }
}

pub fn entered(image: &[u8], state: State, event: &[u8]) -> State
    ensures { result ≡ entered image.now event.now (entry_count event.now) state }
{
    let mut t = state;
    for k in 0..entry_count(event) {
        t = enter(image, event, k, t);
    }
    t
}
