// One token more: what the row that it begins does to what is still to come.
#![tactic(auto, using(std::proofs::lemmas::Bool::Decides::nat_tests), unfolding(crate::specs::Steps::rear_at, crate::specs::Steps::moved, crate::specs::Replies::effect_is, crate::specs::Replies::ahead_of))]

ghost use Rattle.std.specs.Prelude.{◌≡◌, ◌<◌};
ghost use Rattle.recognise.specs.Steps.{rear_at, moved, marks, ends, begins_in_list, step_of, start_ahead};
ghost use Rattle.recognise.specs.Replies.{effect_is, to_position, ahead_of, came, Lawful};

use super::Ahead;
use super::tables::{Effect, row_of};

// A token that can come: what it says, and what is to come after it.
#[derive(Clone, Copy)]
pub struct Went {
    pub says: u8,
    pub next: Ahead,
}

// What is to come at the beginning of a text.
pub(crate) fn start() -> Ahead
    ensures { result ≡ start_ahead }
{
    Ahead {
        at: 0,
        met: [0; 8],
        rear: 0,
        parens: 0,
        lists: 0,
    }
}

// The end of an expression: of a condition the node goes on, of an assignment it ends. Positions are numbers, as the definition `rear_at` has them.
fn rear_at(rear: u8) -> u8
    ensures { result ≡ rear_at rear }
{
    if rear == 0 { 2 } else { 3 }
}

// An attribute that the node does not have yet.
fn marks(a: Ahead, at: u8, n: u8) -> Option<Ahead>
    requires { n < 8 }
    ensures { result ≡ ahead_of (moved a (to_position at) (marks n)) }
{
    let mut met = a.met;
    if met[n as usize] != 0 {
        return None;
    }
    met[n as usize] = 1;
    Some(Ahead {
        at,
        met,
        rear: 0,
        parens: 0,
        ..a
    })
}

// The end of an expression whose parentheses are closed.
fn ends(a: Ahead, at: u8) -> Option<Ahead>
    ensures { result ≡ ahead_of (moved a (to_position at) ends) }
{
    if a.parens != 0 {
        return None;
    }
    Some(Ahead {
        at: rear_at(a.rear),
        ..a
    })
}

// A node begins in a list.
fn begins_in_list(a: Ahead, at: u8) -> Option<Ahead>
    ensures { result ≡ ahead_of (moved a (to_position at) begins_in_list) }
{
    if a.lists == 0 {
        return None;
    }
    Some(Ahead {
        at,
        met: [0; 8],
        ..a
    })
}

// What is to come after a row with the effect, at the position that follows.
fn moved(a: Ahead, effect: Effect, at: u8) -> Option<Ahead>
    requires { Lawful effect }
    ensures { result ≡ ahead_of (moved a (to_position at) (effect_is effect)) }
{
    match effect {
        Effect::GoesOn => Some(Ahead { at, ..a }),
        Effect::BeginsNode => Some(Ahead {
            at,
            met: [0; 8],
            ..a
        }),
        Effect::BeginsInList => begins_in_list(a, at),
        Effect::ClosesList => {
            let lists = a.lists.checked_sub(1)?;
            Some(Ahead { at, lists, ..a })
        }
        Effect::OpensList => {
            let lists = a.lists.checked_add(1)?;
            Some(Ahead { at, lists, ..a })
        }
        Effect::Assigns => Some(Ahead {
            at,
            rear: 1,
            parens: 0,
            ..a
        }),
        Effect::OpensParen => {
            let parens = a.parens.checked_add(1)?;
            Some(Ahead { at, parens, ..a })
        }
        Effect::Ends => ends(a, at),
        Effect::ClosesParen => {
            let parens = a.parens.checked_sub(1)?;
            Some(Ahead { at, parens, ..a })
        }
        Effect::Marks(n) => marks(a, at, n),
    }
}

// One token more, of the class; none where it cannot come.
pub fn step(a: Ahead, class: u8) -> Option<Went>
    ensures { result ≡ came (step_of a class) }
{
    let m = row_of(a.at, class)?;
    let next = moved(a, m.effect, m.next)?;
    Some(Went { says: m.says, next })
}
