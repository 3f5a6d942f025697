// The next token of a text, taken where it can come.
ghost use Rattle.std.specs.Prelude.{◌≡◌};
ghost use Rattle.recognise.specs.Hears.{Scanned};
ghost use Rattle.recognise.specs.Taking.{taken_of};

use super::steps::step;
use super::{Ahead, Cursor, OVER};
use scan::{Broken, Token};

// A token that can come, what it says, and what is to come after it. Places in the text and no slice, as in the definition `taken_of`.
#[derive(Clone, Copy)]
pub struct Taken {
    pub from: usize,
    pub to: usize,
    pub says: u8,
    pub next: Ahead,
}

// Why no token is taken.
#[derive(Clone, Copy)]
pub enum Halt {
    // The text has no token more.
    Done,
    Broken(Broken),
    // The token cannot come.
    Refused(Token),
}

impl From<Broken> for Halt {
    ghost use Rattle.recognise.specs.declared.taking.Halt.TheVariants.{Broken};

    ghost from_gives = { λ b h. h ≡ Broken b };

    fn from(b: Broken) -> Halt {
        Halt::Broken(b)
    }
}

// The next token of the text, at a place with something to come. Text and place are two, as in the definition `taken_of`.
pub fn take(text: &[u8], at: usize, a: Ahead) -> Result<Taken, Halt>
    ensures { result ≡ taken_of text.now at a }
{
    let Some(token) = scan::token_at(text, at)? else {
        return Err(Halt::Done);
    };
    let from = token.from;
    let to = token.to;
    let class = words::class_of(&text[from..to]);
    let Some(s) = step(a, class) else {
        return Err(Halt::Refused(token));
    };
    Ok(Taken {
        from,
        to,
        says: s.says,
        next: s.next,
    })
}

// To the next token that says something.
pub(crate) fn advance(text: &[u8], c: Cursor) -> Cursor
    ensures { Scanned text.now c result }
{
    let mut at = c.at;
    let mut ahead = c.ahead;
    while let Ok(t) = take(text, at, ahead) {
        at = t.to;
        ahead = t.next;
        if t.says != 0 {
            return Cursor {
                at,
                from: t.from,
                to: t.to,
                says: t.says,
                ahead,
                sayings: 0,
            };
        }
    }
    Cursor {
        at,
        from: 0,
        to: 0,
        says: OVER,
        ahead,
        sayings: 0,
    }
}
