// Int sum, difference and product within the range, and Reals that are finite: what is outside is Unknown.
#![tactic(auto)]

mod ints;
mod reals;

pub use ints::{add_int, mul_int, sub_int};
pub use reals::{is_finite, real_in};
