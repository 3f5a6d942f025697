// The calls by value: fresh start, run and turn, each with its whole reply. "Every call checks its image first".
// The phase of a card is a number, and a state and a card, and a list and its start, are parameters beside each other: the C interface, C lends them so,
// and refusal 31 is for a start past the list's end, so that no slice can be made of it before.
// fresh and run_test match a verdict, which is no Result: what may not change, the definitions fresh_reply and run_test have the Verdict.
#![tactic(auto)]

mod fresh_start;
mod kept;
mod reports;
mod runs;
mod tested;

pub use fresh_start::fresh;
pub use reports::turn;
pub use runs::run;
