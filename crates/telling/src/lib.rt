// The calls made on a plan, and what they answered and left, told in words.
#![tactic(auto)]

mod answers;
mod given;
mod left;
mod plays;
mod shown;
#[cfg(test)]
mod tests;
mod words;
mod written;

pub use answers::{Ended, Judged};
pub use given::Left;
pub use left::{fresh, run, run_to, turn, turn_to};
pub use plays::{after, check, judge, play, start};
pub use shown::{
    show_check, show_fresh, show_judge, show_run, show_run_to, show_turn, show_turn_to,
};
pub use words::{first, kept, root, second, x, y};
