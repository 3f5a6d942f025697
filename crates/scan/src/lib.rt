// What stands next in a text: the token after blanks and comments, found by one loop for each kind of byte.
#![tactic(auto)]

mod bytes;
mod comments;
mod runs;
mod tokens;

pub use bytes::{is_blank, is_digit, is_letter, is_word_byte};
pub use comments::Broken;
pub use runs::run_end;
pub use tokens::{Token, token_at};
