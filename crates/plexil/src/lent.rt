// A state lent array by array, so that what reads it takes no copy on its stack.
ghost use Rattle.std.specs.Prelude.{◌≡◌};
ghost use Rattle.plexil.specs.Lent.{state_lent};
ghost use Rattle.plexil.specs.Promises.{Sized};

use super::State;

// What expressions read of a state.
#[derive(Clone, Copy)]
pub struct Seen<'a> {
    pub status: &'a [u8],
    pub outcome: &'a [u8],
    pub failure: &'a [u8],
    pub vartags: &'a [u8],
    pub varbits: &'a [u64],
    pub looktags: &'a [u8],
    pub lookbits: &'a [u64],
}

// What a visit reads: "only the state before the step".
#[derive(Clone, Copy)]
pub struct Before<'a> {
    pub seen: Seen<'a>,
    pub mark: &'a [u8],
}

impl State {
    pub fn lent(&self) -> Before<'_>
        ensures arrays { state_lent result ≡ self.now }
        ensures sized { Sized self.now }
    {
        Before {
            seen: Seen {
                status: &self.status,
                outcome: &self.outcome,
                failure: &self.failure,
                vartags: &self.vartags,
                varbits: &self.varbits,
                looktags: &self.looktags,
                lookbits: &self.lookbits,
            },
            mark: &self.mark,
        }
    }
}
