// The kinds of the declared variables, in a table: a use may stand before its declaration.
ghost use Rattle.std.specs.Prelude.{◌≡◌, List, ◌-◌, length};
ghost use Rattle.grammar.specs.Table.{Said};
ghost use Rattle.notation.specs.Sayings.{Saying};
ghost use Rattle.notation.specs.Hearing.{draft_of};
ghost use Rattle.recognise.specs.Tape.{Tape};
ghost use Rattle.names.specs.Answers.{Accepted};
ghost use Rattle.names.specs.Kinds.{Kinded};

use super::walk::{start, step};

// "Kinds: 0 Bool, 1 Int (64-bit signed), 2 Real", where the sayings 20 to 22 declare a variable of each.
fn kind_said(says: u8) -> usize
    ensures { result ≡ says - 20 }
{
    if says < 20 { 0 } else { (says - 20) as usize }
}

// In the order of declaration, at the places that `base_of` and `room_of` give to variables.
pub fn fill_kinds<'a>(text: &'a [u8], owner: &'a [usize; 10525], kind: &mut [usize; 704])
    ensures { (l : List (Said Saying)) → length kind.old ≡ 704 → Accepted text.now l → Tape text.now owner.now → Kinded (draft_of l) kind.old kind.new }
{
    let mut lists = [0usize; 16];
    let mut w = start(owner);
    let mut n: usize = 0;
    while let Some(next) = step(text, owner, &mut lists, w) {
        w = next;
        if w.role == 2 {
            if n < 128 {
                let c = w.cursor;
                let j = 320 + n;
                kind[j] = kind_said(c.says);
                n += 1;
            }
        }
    }
}
