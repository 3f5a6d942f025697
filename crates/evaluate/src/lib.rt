// "Values and expressions": what an expression entry answers in a state, and what a node's condition answers with its default.
// leaf, entered and join match numbers: what may not change, leaf and join are public and answer for any byte, and image's public functions answer bytes.
// 65535 is a number: what may not change, the definition condition_or compares with default, and image::condition_field, a public function, answers it.
// An image and a record's number are two parameters, as in the definitions: no plainer as a struct of the two, which each clause would name by its fields.
#![tactic(auto, unfolding(plexil::specs::Lists::opened))]

mod binary;
mod conditions;
mod entries;
mod leaves;

pub use binary::join;
pub use conditions::{condition, fails, holds};
pub use entries::{leaf, value_of};
pub use leaves::cell_value;
