// Operators whose right operand has not ended, in a lent array: at each place three numbers, the operator's saying (79 NOT), its left operand's entry, and how many parentheses are open after it; place 0 has the parentheses before the first operator.
// One array, since it is lent (no heap, fixed memory); the sayings' numbers, here and in the other files, are those of the definition say_of (recognise, Codes.antt).
ghost use Rattle.build.specs.Pendings.{Weighs, Pushed, Raised, Lowered, Keeps, IsPrefix, IsHeld, EndsOne, EndsAt, Prefixes, Unwinds, Follows};

use super::entries::{NOT, emit, end_operator, last, strength};
use super::known::Source;
use super::steps::next;
use super::write::{BLANK, Entry};
use names::Tables;
use recognise::Cursor;

// Where a reader stands, how many operators are kept, and how many entries there are.
#[derive(Clone, Copy)]
pub struct Stand {
    pub at: Cursor,
    pub top: usize,
    pub entries: usize,
}

// How many operators are kept, and how many entries there are.
#[derive(Clone, Copy)]
pub struct Unwound {
    pub top: usize,
    pub entries: usize,
}

// One more operator is kept, where there is room for it.
pub fn push(pending: &mut [usize; 6147], top: usize, says: u8, first: usize) -> usize
    ensures { Pushed pending.old top says first result pending.new }
{
    if top >= 2048 {
        return top;
    }
    let i = 3 * (top + 1);
    pending[i] = says as usize;
    pending[i + 1] = first;
    pending[i + 2] = 0;
    top + 1
}

// A parenthesis opens.
fn raise(pending: &mut [usize; 6147], top: usize)
    ensures { Raised pending.old top pending.new }
{
    if top > 2048 {
        return;
    }
    let i = 3 * top + 2;
    let n = pending[i];
    if n >= usize::MAX {
        return;
    }
    pending[i] = n + 1;
}

// It closes.
fn lower(pending: &mut [usize; 6147], top: usize)
    ensures { Lowered pending.old top pending.new }
{
    if top > 2048 {
        return;
    }
    let i = 3 * top + 2;
    pending[i] = last(pending[i]);
}

// How strongly an operator binds, "NOT and `!` .. weaker than comparisons and stronger than AND" among them.
fn weight(says: u8) -> u8
    ensures { Weighs says result }
{
    if says == 79 {
        return 3;
    }
    strength(says)
}

// An operator ends: its left operand is the entry a, its right one the last.
fn end_one(image: &mut [u8; 41108], base: usize, n: usize, says: u8, a: usize) -> usize
    ensures { EndsOne base n says a image.old result image.new }
{
    if says == 79 {
        let e = Entry {
            op: NOT,
            a: last(n),
            ..BLANK
        };
        return emit(image, base, n, e);
    }
    end_operator(image, base, n, says, a)
}

// "(" or NOT
fn is_prefix(says: u8) -> bool
    ensures { IsPrefix says result }
{
    if says == 91 {
        return true;
    }
    says == 79
}

// It is kept.
fn keep(pending: &mut [usize; 6147], top: usize, says: u8) -> usize
    ensures { Keeps pending.old top says result pending.new }
{
    if says == 91 {
        raise(pending, top);
        return top;
    }
    push(pending, top, 79, 0)
}

// Past the parentheses and NOTs before an operand, at most `left`.
pub fn prefixes<'a>(
    names: Tables<'a>,
    pending: &mut [usize; 6147],
    top: usize,
    c: Cursor,
    left: usize,
) -> Stand
    ensures { Prefixes names.entry.text.now names.entry.owner.now left top c pending.old result.at result.top pending.new }
{
    let mut at = next(names, c);
    let mut up = top;
    for _ in 0..left {
        let says = at.says;
        if !is_prefix(says) {
            return Stand {
                at,
                top: up,
                entries: 0,
            };
        }
        up = keep(pending, up, says);
        at = next(names, at);
    }
    Stand {
        at,
        top: up,
        entries: 0,
    }
}

// The operator at place t does not end before what binds with strength k.
fn is_held(pending: &[usize; 6147], t: usize, k: u8) -> bool
    ensures { IsHeld pending.now t k result }
{
    if t > 2048 {
        return true;
    }
    let i = 3 * t;
    if pending[i + 2] != 0 {
        return true;
    }
    weight((pending[i] % 256) as u8) < k
}

// It ends.
fn end_at(
    image: &mut [u8; 41108],
    base: usize,
    pending: &[usize; 6147],
    t: usize,
    n: usize,
) -> usize
    ensures { EndsAt base pending.now t n image.old result image.new }
{
    if t > 2048 {
        return n;
    }
    let i = 3 * t;
    end_one(image, base, n, (pending[i] % 256) as u8, pending[i + 1])
}

// The operators end that bind at least as strongly as k.
fn unwind(
    image: &mut [u8; 41108],
    base: usize,
    pending: &[usize; 6147],
    top: usize,
    n: usize,
    k: u8,
) -> Unwound
    ensures { Unwinds base pending.now top n k image.old result.top result.entries image.new }
{
    let mut m = n;
    for t in (1..=top).rev() {
        if is_held(pending, t, k) {
            return Unwound { top: t, entries: m };
        }
        m = end_at(image, base, pending, t, m);
    }
    Unwound { top: 0, entries: m }
}

// After an operand: what is said next ends the operators that it ends, and parentheses close, at most `left`.
pub fn follow<'a>(
    source: Source<'a>,
    image: &mut [u8; 41108],
    pending: &mut [usize; 6147],
    s: Stand,
    left: usize,
) -> Stand
    ensures { Follows source.entry.names.text.now source.entry.names.owner.now source.entry.base left s.top s.at s.entries pending.old image.old result.at result.top result.entries pending.new image.new }
{
    let mut at = s.at;
    let mut top = s.top;
    let mut n = s.entries;
    for _ in 0..left {
        let u = unwind(image, source.base, pending, top, n, strength(at.says));
        top = u.top;
        n = u.entries;
        if at.says != 92 {
            return Stand {
                at,
                top,
                entries: n,
            };
        }
        lower(pending, top);
        at = next(source.names, at);
    }
    Stand {
        at,
        top,
        entries: n,
    }
}
