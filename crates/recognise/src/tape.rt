// The tape: what an accepted text says, kept behind the owners of its declarations, so that the text is scanned once. Place 704 has the number of
// the sayings, 0 where they are not kept; each place from 705 on has two of them: a saying's number, where its token begins and how long it is.
// Without a heap the array is lent: the number of sayings stands in it, and two sayings are one number there, by the definitions `packed` and `held_in`.
ghost use Rattle.std.specs.Prelude.{◌≡◌, ◌<◌, ◌≤◌, ◌-◌, set};
ghost use Rattle.recognise.specs.Tape.{packed, held_in, holding, sealed, Winds, Advanced, Begun};

use super::steps::start;
use super::taking::advance;
use super::{Cursor, OVER};

// A saying and its token in one number.
fn pack(says: u8, from: usize, to: usize) -> usize
    requires { (says < 128) × (from ≤ to) × (to < 262144) × (to - from < 128) }
    ensures { (result ≡ packed says from to) × (result < 4294967296) }
{
    says as usize + 128 * from + 33554432 * (to - from)
}

// The saying i, as it is kept.
fn held(owner: &[usize; 10525], i: usize) -> usize
    requires { i < 19640 }
    ensures { result ≡ held_in owner.now i }
{
    let two = owner[705 + i / 2];
    if i % 2 == 0 {
        return two % 4294967296;
    }
    two / 4294967296
}

// The saying i is kept; one that was kept before it in the same place stays.
fn hold(owner: &mut [usize; 10525], i: usize, kept: usize)
    requires { (i < 19640) × (kept < 4294967296) }
    ensures { owner.new ≡ holding owner.old i kept }
{
    let j = 705 + i / 2;
    if i % 2 == 0 {
        owner[j] = kept;
        return;
    }
    owner[j] = owner[j] % 4294967296 + 4294967296 * kept;
}

// What the token says is kept, where there is room for it; how many sayings there are then, 19641 where not all are kept: the definitions
// `Winds` and `sealed` count so.
pub(crate) fn keep(owner: &mut [usize; 10525], i: usize, says: u8, from: usize, to: usize) -> usize
    requires { (says < 128) × (from ≤ to) }
    ensures { Winds owner.old i says from to result owner.new }
{
    if says == 0 {
        return i;
    }
    if i >= 19640 {
        return 19641;
    }
    if to >= 262144 {
        return 19641;
    }
    if to - from >= 128 {
        return 19641;
    }
    hold(owner, i, pack(says, from, to));
    i + 1
}

// The number of sayings, where the tape has them all.
fn sealed(i: usize) -> usize
    ensures { result ≡ sealed i }
{
    if i > 19640 { 0 } else { i }
}

// The whole text has been kept.
pub(crate) fn seal(owner: &mut [usize; 10525], i: usize)
    ensures { owner.new ≡ set owner.old 704 (sealed i) }
{
    owner[704] = sealed(i);
}

// At the beginning of a text.
pub fn begin(owner: &[usize; 10525]) -> Cursor
    ensures { Begun owner.now result }
{
    Cursor {
        at: 0,
        from: 0,
        to: 0,
        says: OVER,
        ahead: start(),
        sayings: owner[704],
    }
}

// Nothing more is said.
fn over(c: Cursor) -> Cursor
    ensures { result ≡ record { at = c.at; «from» = 0; to = 0; says = 94; ahead = c.ahead; sayings = c.sayings } }
{
    Cursor {
        from: 0,
        to: 0,
        says: OVER,
        ..c
    }
}

// To the next saying. Text and tape are two, as in the definition `Advanced`.
// Inlined: a walk that asks only for what is said does not copy what is to come.
#[inline(always)]
pub fn next<'a>(text: &'a [u8], owner: &'a [usize; 10525], c: Cursor) -> Cursor
    ensures { Advanced text.now owner.now c result }
{
    let sayings = c.sayings;
    if sayings == 0 {
        return advance(text, c);
    }
    let i = c.at;
    if i >= sayings {
        return over(c);
    }
    if i >= 19640 {
        return over(c);
    }
    let kept = held(owner, i);
    let says = (kept % 128) as u8;
    let from = kept / 128 % 262144;
    let to = from + kept / 33554432;
    if says >= OVER {
        return over(c);
    }
    if text.len() < to {
        return over(c);
    }
    Cursor {
        at: i + 1,
        from,
        to,
        says,
        ..c
    }
}
