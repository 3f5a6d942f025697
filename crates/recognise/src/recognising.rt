// Whether a text is of the notation, how far it is viable, and its counts: one loop over its tokens, no stack.
ghost use Rattle.std.specs.Prelude.{◌≡◌, length};
ghost use Rattle.recognise.specs.Recognised.{refused_at, recognised_of};
ghost use Rattle.recognise.specs.Tape.{Tape};
ghost use Rattle.recognise.specs.Reaching.{whole_at, tallied, viable_from, more_of, reached_by, Lies};

use super::counting::count;
use super::steps::{start, step};
use super::taking::{Halt, take};
use super::tape::{keep, seal};
use super::{Ahead, Counts, Recognised};

// The text has no token more, and nothing is to come.
#[tactic(auto, unfolding(crate::specs::Reaching::whole_at))]
fn is_whole(halt: Halt, a: Ahead) -> bool
    ensures { result ≡ whole_at halt a }
{
    match halt {
        Halt::Done => (a.at == 1) & (a.lists == 0),
        Halt::Broken(_) => false,
        Halt::Refused(_) => false,
    }
}

fn refused_at(reach: usize) -> Recognised
    ensures { result ≡ refused_at reach }
{
    Recognised {
        reach,
        ..Recognised::default()
    }
}

// As in the definition `tallied`; a `From` would write the same fields.
fn accepted_as(c: Counts) -> Recognised
    ensures { result ≡ tallied c }
{
    Recognised {
        accepted: true,
        reach: 0,
        deep: c.deep,
        place: c.place,
        nodes: c.nodes,
        entries: c.entries,
        variables: c.variables,
        lookups: c.lookups,
        commands: c.commands,
    }
}

// The more of a length and of how much of a token can begin one of the class, where such can come.
fn more_of(t: &[u8], a: Ahead, most: usize, class: u8) -> usize
    ensures { result ≡ more_of t.now a most class }
{
    match step(a, class) {
        Some(_) => most.max(words::viable(class, t)),
        None => most,
    }
}

// How much of a token can begin one that can come: the most over the classes.
fn viable_at(t: &[u8], a: Ahead) -> usize
    ensures { result ≡ viable_from t.now a 0 76 }
{
    let mut most = 0;
    for k in 0..76 {
        most = more_of(t, a, most, k);
    }
    most
}

// How far a text is viable that ends, breaks or cannot go on with the token.
fn reach_of(text: &[u8], halt: Halt, a: Ahead) -> usize
    requires { Lies text.now halt a }
    ensures { result ≡ reached_by text.now halt a }
{
    match halt {
        Halt::Done => text.len(),
        Halt::Broken(b) => b.to,
        Halt::Refused(t) => t.from + viable_at(&text[t.from..t.to], a),
    }
}

// What the text says is kept on the tape behind the owners. Text and tape are two, as the definition `Tape` has them: the tape alone is written here.
pub fn recognise(text: &[u8], owner: &mut [usize; 10525]) -> Recognised
    ensures { (result ≡ recognised_of text.now) × (length owner.old ≡ 10525 → (length owner.new ≡ 10525) × Tape text.now owner.new) }
{
    let mut at = 0;
    let mut sayings = 0;
    let mut ahead = start();
    let mut n = Counts::default();
    loop {
        match take(text, at, ahead) {
            Ok(t) => {
                n = count(n, t.says, t.from);
                sayings = keep(owner, sayings, t.says, t.from, t.to);
                at = t.to;
                ahead = t.next;
            }
            Err(halt) => {
                if is_whole(halt, ahead) {
                    seal(owner, sayings);
                    return accepted_as(n);
                }
                return refused_at(reach_of(text, halt, ahead));
            }
        }
    }
}
