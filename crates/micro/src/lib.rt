// 004's micro relation in code: every node visited, and one step of them all.
#![tactic(auto)]

mod rest;
mod steps;
mod words;

pub use rest::is_quiet;
pub use steps::{Stepped, step};
