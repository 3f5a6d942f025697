// What one token of a text is: its class, its number, its bits, and how much of it is viable. A token is a part of the text.
// Classes are numbers, as the definitions `class_of`, `number_class` and `viable_class` have them.
#![tactic(auto)]

mod bytes;
mod decimals;
mod literals;
mod numbers;
mod prefixes;
mod reals;
mod tokens;

pub use bytes::same;
pub use numbers::{number_of, signed, signed_bits};
pub use prefixes::viable;
pub use reals::real_bits;
pub use tokens::class_of;
