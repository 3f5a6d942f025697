// The answers of all entries in a state, worked out once each, in entry order: an operand has a lower number than its entry.
// 65535 and operators are numbers: what may not change, the definition condition_or has default, and image's public functions answer any byte.
// The table's tags and bits are two arrays, and a flag is a byte, not 0 where it is up: what may not change, the public functions fill, refresh, condition,
// holds, fails, written and is_up take them so, and the definitions IsTable and up.
// `base` is worked out once for all entries: no plainer in a struct with the image, where each clause would name the two by their fields.
#![tactic(auto)]

mod conditions;
mod entry;
mod flags;
mod renewal;
mod table;

pub use conditions::{condition, fails, holds, written};
pub use flags::is_up;
pub use renewal::refresh;
pub use table::fill;
