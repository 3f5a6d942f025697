// Refusals 1 to 9: the header, the tree of nodes, and each record by itself.
// Node types, kinds, operators, known flags and 65535 are numbers: what may not change, image's public functions answer the fields, any number can stand in
// an image, and the definitions of Records compare them with 0, 1, 2 and default.
// An image and a record's number are two parameters, as in the definitions: no plainer as a struct of the two, which each clause would name by its fields.
#![tactic(auto, unfolding(plexil::specs::Lists::opened, plexil::specs::Records::opened, plexil::specs::Check::opened))]

mod conditions;
mod expressions;
mod header;
mod nodes;
mod operands;
mod variables;

pub use conditions::{all_conditions, each_condition};
pub use expressions::broken_expression;
pub use header::{broken_count, broken_edition, broken_layout, broken_short};
pub use nodes::{broken_node, broken_tree};
pub use variables::{broken_lookup, broken_variable};
