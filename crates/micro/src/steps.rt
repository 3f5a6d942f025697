// One micro step: every node visited, the words counted and written, the writes and the losers settled.
ghost use Rattle.std.specs.Prelude.{◌≡◌};
ghost use Rattle.plexil.specs.Promises.{IsAdmitted, IsKept};
ghost use Rattle.micro.specs.Stepped.{stepped_of, part_after};

use super::words::{count_words, put_words};
use atomic::test_children;
use plexil::{Carry, State};
use settle::settle;
use visit::walk;

// Quiet: no rule applies. NoRoom: the words do not fit, and nothing was done. Done: how many words were written, and the state then.
#[derive(Clone, Copy)]
pub enum Stepped {
    Quiet,
    NoRoom,
    Done(u16, State),
}

// Not inlined: so its arrays leave the stack before a run asks whether the plan is quiet.
#[inline(never)]
pub fn step(image: &[u8], s: &State, part: &mut [u32]) -> Stepped
    requires { IsAdmitted image.now × IsKept image.now s.now }
    ensures { (result ≡ stepped_of image.now s.now part.old) × (part.new ≡ part_after image.now s.now part.old) }
{
    let before = s.lent();
    // Before the children's tests, so that what is carried is laid where it stays, and not copied there.
    let mut carry = Carry::nothing(s);
    let mut sent = [0u8; 256];
    let tests = test_children(image, before.seen.status);
    let n = image::node_count(image);
    if !walk(image, &before, n, &tests, &mut carry, &mut sent) {
        return Stepped::Quiet;
    }
    let words = count_words(&sent, n);
    if words as usize > part.len() {
        return Stepped::NoRoom;
    }
    put_words(&sent, n, part);
    Stepped::Done(words, settle(image, s, &carry))
}
