// A state and its turn card, as a call is given or leaves them.
ghost use Rattle.std.specs.Prelude.{◌≡◌};

use plexil::{Card, Ran, Started, State};

#[derive(Clone, Copy, PartialEq, Eq)]
pub struct Left {
    pub state: State,
    pub card: Card,
}

impl<'a> From<&'a Started> for Left {
    ghost from_gives = { λ s l. (l.state ≡ s.now.state) × (l.card ≡ s.now.card) };

    fn from(s: &'a Started) -> Left {
        Left {
            state: s.state,
            card: s.card,
        }
    }
}

impl<'a> From<&'a Ran> for Left {
    ghost from_gives = { λ r l. (l.state ≡ r.now.state) × (l.card ≡ r.now.card) };

    fn from(r: &'a Ran) -> Left {
        Left {
            state: r.state,
            card: r.card,
        }
    }
}
