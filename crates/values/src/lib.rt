// "Values and expressions": the operators on worked-out values, and how a value is kept in a cell.
#![tactic(auto, unfolding(plexil::specs::Values::opened))]

mod cells;
mod junctions;
mod numbers;
mod pairs;
mod truth;

pub use cells::{decode, encode, good_bits, known};
pub use junctions::{and_of, or_of};
pub use numbers::{add_of, le_of, lt_of, mul_of, sub_of};
pub use pairs::{eq_of, pair_of};
pub use truth::{not_of, says};
