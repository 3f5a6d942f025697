// Refusal 30: "state .. breaks the form, kinds or parent table, a mark off such a command". The part about the card is in crate turns.
// Node types and kinds are numbers: what may not change, image's public functions node_type, var_kind and look_kind answer bytes, and of_type and
// good_cell, the definitions, compare them. Tags, bits and marks are numbers in arrays, any that C lends: the C interface.
// An image and a node's number are two parameters, as in the definitions: no plainer as a struct of the two, which each clause would name by its fields.
#![tactic(auto, unfolding(plexil::specs::Lists::opened, plexil::specs::Form::opened, plexil::specs::Places::opened, plexil::specs::Atomic::is_closing, plexil::specs::Records::is_list, plexil::specs::Records::is_command, plexil::specs::Records::is_assignment))]

mod cells;
mod nodes;
mod statuses;
mod unused;

ghost use Rattle.std.specs.Prelude.{◌≡◌};
ghost use Rattle.plexil.specs.Form.{good_state};

use cells::has_kind;
use nodes::good_place;
use plexil::{State, all_below};
pub use statuses::is_awaiting;
use unused::unused_empty;

pub fn good_state(image: &[u8], state: &State) -> bool
    ensures { result ≡ good_state image.now state.now }
{
    all_below(image::node_count(image), |i| good_place(image, state, i))
        && all_below(image::var_count(image), |v| {
            has_kind(image::var_kind(image, v), &state.vartags, &state.varbits, v)
        })
        && all_below(image::look_count(image), |l| {
            has_kind(
                image::look_kind(image, l),
                &state.looktags,
                &state.lookbits,
                l,
            )
        })
        && unused_empty(image, state)
}
