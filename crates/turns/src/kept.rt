// Refusal 30: "state or card breaks the form, kinds or parent table, a mark off such a command, Quiet while a rule applies".
ghost use Rattle.std.specs.Prelude.{◌≡◌};
ghost use Rattle.plexil.specs.Form.{good_card, good_kept};
ghost use Rattle.plexil.specs.Promises.{IsAdmitted};

use plexil::{Card, State};

// Running, or Quiet while no rule applies.
fn good_card(image: &[u8], state: &State, card: Card) -> bool
    requires { IsAdmitted image.now }
    ensures { result ≡ good_card image.now state.now card }
{
    match card.phase {
        0 => true,
        1 => micro::is_quiet(image, &state.lent()),
        _ => false,
    }
}

pub fn good_kept(image: &[u8], state: &State, card: Card) -> bool
    requires { IsAdmitted image.now }
    ensures { result ≡ good_kept image.now state.now card }
{
    form::good_state(image, state) && good_card(image, state, card)
}
