// "State, card, command list" in code: what stands at a place, initial values and the fresh state.
#![tactic(auto)]

mod cells;
mod fresh;
mod statuses;

pub use cells::{initial, known_cell};
pub use fresh::fresh_state;
pub use statuses::{parent_status, status_at};
