// The state after the settling.
ghost use Rattle.std.specs.Prelude.{◌≡◌};
ghost use Rattle.plexil.specs.Order.{settle};
ghost use Rattle.plexil.specs.Carried.{carry_in};
ghost use Rattle.plexil.specs.Promises.{IsAdmitted};

use super::losers::settle_places;
use super::variables::settle_vars;
use plexil::{Carry, State};

pub fn settle(image: &[u8], s: &State, carry: &Carry) -> State
    requires { IsAdmitted image.now }
    ensures { result ≡ settle image.now s.now (carry_in carry.now) }
{
    let mut next = *s;
    next.status = carry.status;
    next.outcome = carry.outcome;
    next.failure = carry.failure;
    next.mark = carry.mark;
    settle_places(
        image,
        &carry.wrote,
        &carry.node,
        &carry.tied,
        &mut next.outcome,
        &mut next.failure,
    );
    settle_vars(
        image,
        &s.status,
        &carry.status,
        &carry.top,
        &carry.tags,
        &carry.bits,
        &carry.tied,
        &mut next.vartags,
        &mut next.varbits,
    );
    next
}
