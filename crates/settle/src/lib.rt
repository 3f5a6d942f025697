// "After the last visit the writes and the losers are settled from what is carried."
// A tie is a number, and tags and bits are two arrays: what may not change, the definitions leads and settled_var, and C lends a state's so.
// settle_places and settle_vars take what they read array by array, as public functions whose clauses may not change.
#![tactic(auto)]

mod losers;
mod settled;
mod variables;

pub use losers::settle_places;
pub use settled::settle;
pub use variables::settle_vars;
