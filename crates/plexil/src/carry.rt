// What the visits of a step carry on.
ghost use Rattle.std.specs.Prelude.{◌≡◌};
ghost use Rattle.plexil.specs.Order.{carry_nothing};
ghost use Rattle.plexil.specs.Carried.{carry_in};

use super::State;

// The cell that leads variable v is (tags[v], bits[v]), node[v]'s; top[v] is one more than its priority, 0 where no writer was met. Arrays side by side, as the
// definition Carry (specs/Order) has lists: with one array of leaders every contract would be a map over it, which is no plainer.
#[derive(Clone, Copy)]
pub struct Carry {
    pub status: [u8; 256],
    pub outcome: [u8; 256],
    pub failure: [u8; 256],
    pub mark: [u8; 256],
    pub wrote: [bool; 256],
    pub top: [u32; 128],
    pub node: [u16; 128],
    pub tags: [u8; 128],
    pub bits: [u64; 128],
    pub tied: [u8; 128],
}

impl Carry {
    // Before the first visit.
    pub fn nothing(s: &State) -> Carry
        ensures { carry_in result ≡ carry_nothing s.now }
    {
        Carry {
            status: s.status,
            outcome: s.outcome,
            failure: s.failure,
            mark: s.mark,
            wrote: [false; 256],
            top: [0; 128],
            node: [0; 128],
            tags: [0; 128],
            bits: [0; 128],
            tied: [0; 128],
        }
    }
}
