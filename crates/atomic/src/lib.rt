// 004's atomic relation in code: the one move that a node makes, and what it makes of the node's place.
// Outcomes, failures, marks and node types are numbers: what may not change, the definitions ending_by, fails_by, mark_by and place_by answer a state's
// codes, which C lends, and image::node_type, a public function, answers the byte.
// An image and a node's number are two parameters, as in the definitions: no plainer as a struct of the two, which each clause would name by its fields.
#![tactic(auto)]

mod children;
mod moved;
mod rules;
mod statuses;

pub use children::{ChildTests, test_children};
pub use moved::{applies, place_by, sent_by, writes};
pub use rules::move_of;
