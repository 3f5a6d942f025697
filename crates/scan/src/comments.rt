// Past blanks and comments. A place is where the machine of the definition stands between tokens.
// Text and place go beside each other, as in `token_at`, `Skipped` and `Passed` of the definitions; a slice from the place on would not tell the place.
ghost use Rattle.std.specs.Prelude.{◌≤◌, ◌+◌, length};
ghost use Rattle.grammar.specs.Spelling.{slash, remark, aside};
ghost use Rattle.grammar.specs.Scan.{token_at};
ghost use Rattle.scan.specs.Runs.{Skipped, Passed};
ghost use Rattle.scan.specs.Reply.{passed_to, place_of};

use super::bytes::is_blank;
use super::runs::run_end;

// The text is broken, and nothing past `to` is viable.
#[derive(Clone, Copy)]
pub struct Broken {
    pub to: usize,
}

pub fn skip_blanks(text: &[u8], at: usize) -> usize
    ensures { Skipped text.now at result }
{
    run_end(text, at, is_blank)
}

// After "//": to the end of the line or of the text.
fn skip_line(text: &[u8], at: usize) -> usize
    requires { at ≤ length text.now }
    ensures { Passed aside text.now at (token_at text.now result) result }
{
    let end = run_end(text, at, |b| b != b'\n');
    if end < text.len() { end + 1 } else { end }
}

// After "/*": to the "*/" that closes it.
fn skip_remark(text: &[u8], at: usize) -> Result<usize, Broken>
    requires { at ≤ length text.now }
    ensures { Passed remark text.now at (passed_to text.now result) (place_of result) }
{
    let mut starred = false;
    for i in at..text.len() {
        let b = text[i];
        if starred & (b == b'/') {
            return Ok(i + 1);
        }
        starred = b == b'*';
    }
    Err(Broken { to: text.len() })
}

// After '/': where the text goes on behind the comment.
pub fn skip_comment(text: &[u8], at: usize) -> Result<usize, Broken>
    requires { at ≤ length text.now }
    ensures { Passed slash text.now at (passed_to text.now result) (place_of result) }
{
    let Some(b) = text.get(at) else {
        return Err(Broken { to: at });
    };
    match *b {
        b'*' => skip_remark(text, at + 1),
        b'/' => Ok(skip_line(text, at + 1)),
        _ => Err(Broken { to: at }),
    }
}
