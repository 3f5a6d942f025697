// A token's end, and the next token, by their places in the text, as the definitions `token_at` and `ending` count them.
ghost use Rattle.std.specs.Prelude.{◌≡◌, ◌+◌, ◌<◌, [], ◌∷◌, length, drop, get_or};
ghost use Rattle.grammar.specs.Scan.{ending, token_at};
ghost use Rattle.scan.specs.Reply.{token_of};

use super::bytes::{is_digit, is_letter, is_number_byte, is_pair, is_word_byte};
use super::comments::{Broken, skip_blanks, skip_comment};
use super::runs::run_end;

// The bytes of a token are those from `from` up to `to`: places and no slice, as the definitions `token_of` and `Next` have them.
#[derive(Clone, Copy)]
pub struct Token {
    pub from: usize,
    pub to: usize,
}

// The end of the token whose first byte stands at `from`.
fn token_end(text: &[u8], from: usize) -> usize
    requires { from < length text.now }
    ensures { result ≡ ending (get_or text.now from 0 ∷ []) (from + 1) (drop (from + 1) text.now) }
{
    let c = text[from];
    let at = from + 1;
    if is_letter(c) {
        return run_end(text, at, is_word_byte);
    }
    if is_digit(c) {
        return run_end(text, at, is_number_byte);
    }
    if at < text.len() && is_pair(c, text[at]) {
        return at + 1;
    }
    at
}

// The next token at `at` or after it, past blanks and comments, if there is one.
pub fn token_at(text: &[u8], at: usize) -> Result<Option<Token>, Broken>
    ensures { result ≡ token_of (token_at text.now at) }
{
    // No `for`: the place goes on by a whole comment, and not by one.
    let mut from = skip_blanks(text, at);
    while from < text.len() {
        if text[from] != b'/' {
            let to = token_end(text, from);
            return Ok(Some(Token { from, to }));
        }
        from = skip_blanks(text, skip_comment(text, from + 1)?);
    }
    Ok(None)
}
