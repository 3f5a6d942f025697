// The names of a text: which declaration a name means, and the first name that is not in order (42).
#![tactic(auto)]

mod answers;
mod bad;
mod filling;
mod in_text;
mod judge;
mod kinds;
mod numbers;
mod resolve;
mod roles;
mod seek;
mod table;
mod walk;

pub use answers::NodeFound;
pub use bad::bad_name;
pub use filling::fill;
pub use kinds::fill_kinds;
pub use numbers::command_number;
pub use table::{Tables, Told};
