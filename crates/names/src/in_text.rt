// Names sought in the text itself, from its beginning: no table is needed, and no count is too large.
ghost use Rattle.std.specs.Prelude.{◌≡◌, List, ◌<◌, unwrap_or};
ghost use Rattle.grammar.specs.Table.{Said};
ghost use Rattle.notation.specs.Sayings.{Saying};
ghost use Rattle.recognise.specs.Tape.{Tape};
ghost use Rattle.names.specs.Seek.{is_called, seek, node_in};
ghost use Rattle.names.specs.Walking.{sort_no};
ghost use Rattle.names.specs.Answers.{Accepted, found_of, tale_said, NodeIs, Lies};

use super::answers::{NOBODY, NodeFound};
use super::walk::{here, start, step};
use words::same;

// A declaration of this owner and name is of the owner m and the name x.
pub fn is_called(name: &[u8], owner: usize, m: usize, x: &[u8]) -> bool
    ensures { result ≡ is_called m x.now (record { name = name.now; owner = owner }) }
{
    if owner != m {
        return false;
    }
    same(name, x)
}

// The sort of what a saying of the role declares.
pub fn sort_of(role: u8) -> u8
    ensures { result ≡ sort_no role }
{
    if role == 4 { 3 } else { role }
}

// The first declaration of the sort, the owner m and the name x.
pub fn find<'a>(
    text: &'a [u8],
    owner: &'a [usize; 10525],
    sort: u8,
    m: usize,
    x: &'a [u8],
) -> Option<usize>
    requires { sort < 4 }
    ensures { ((l : List (Said Saying)) → Accepted text.now l → Tape text.now owner.now → result ≡ found_of (seek sort m x.now (tale_said l))) × (unwrap_or result 0 < 18446744073709551615) }
{
    let mut lists = [0usize; 16];
    let mut w = start(owner);
    let mut count: usize = 0;
    while let Some(next) = step(text, owner, &mut lists, w) {
        w = next;
        if sort_of(w.role) == sort {
            if is_called(&text[w.from..w.to], w.owner, m, x) {
                return Some(count);
            }
            count += 1;
        }
    }
    None
}

// The node of a number.
pub fn node<'a>(text: &'a [u8], owner: &'a [usize; 10525], n: usize) -> NodeFound
    ensures { ((l : List (Said Saying)) → Accepted text.now l → Tape text.now owner.now → NodeIs text.now (node_in (tale_said l) n) result) × Lies text.now result }
{
    let mut lists = [0usize; 16];
    let mut w = start(owner);
    while let Some(next) = step(text, owner, &mut lists, w) {
        w = next;
        if sort_of(w.role) == 3 {
            if here(w.nodes) == n {
                return NodeFound {
                    from: w.from,
                    to: w.to,
                    owner: w.owner,
                };
            }
        }
    }
    NOBODY
}
