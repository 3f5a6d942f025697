// The number of a command, sought in the text itself: no table is needed, and no count is too large.
ghost use Rattle.std.specs.Prelude.{◌≡◌, true, ◌&&◌, List, ◌+◌, ◌≤◌, eqb, length};
ghost use Rattle.grammar.specs.Leads.{is_number, value_from};
ghost use Rattle.grammar.specs.Table.{Said};
ghost use Rattle.notation.specs.Sayings.{Saying};
ghost use Rattle.notation.specs.Hearing.{draft_of};
ghost use Rattle.notation.specs.Mapping.{number_of_command};
ghost use Rattle.recognise.specs.Hears.{piece};
ghost use Rattle.recognise.specs.Tape.{Tape};
ghost use Rattle.names.specs.Answers.{Accepted};

use super::bad::counted;
use super::walk::{start, step};
use words::number_of;

// The number that stands from `from` to `to`.
fn number_at(text: &[u8], from: usize, to: usize) -> usize
    requires { (from ≤ to) × (to ≤ length text.now) }
    ensures { is_number (piece text.now from to) ≡ true → value_from 0 (piece text.now from to) ≤ 9223372036854775808 → result ≡ value_from 0 (piece text.now from to) }
{
    number_of(&text[from..to]) as usize
}

// A saying of the role, after n commands, tells the number of the command i.
fn tells_number(role: u8, n: usize, i: usize) -> bool
    ensures { result ≡ (eqb role 14 && eqb n (i + 1)) }
{
    if role != 14 {
        return false;
    }
    if n <= i {
        return false;
    }
    n - i == 1
}

// Of the command with the place i in the order of declaration; 0 beyond the commands.
pub fn command_number<'a>(text: &'a [u8], owner: &'a [usize; 10525], i: usize) -> usize
    ensures { (l : List (Said Saying)) → Accepted text.now l → Tape text.now owner.now → result ≡ number_of_command (draft_of l).commands i }
{
    let mut lists = [0usize; 16];
    let mut w = start(owner);
    let mut n: usize = 0;
    let mut number: usize = 0;
    while let Some(next) = step(text, owner, &mut lists, w) {
        w = next;
        n = counted(w.role, 0, n);
        if tells_number(w.role, n, i) {
            number = number_at(text, w.from, w.to);
        }
    }
    number
}
