// The tables filled, in one walk through the text.
ghost use Rattle.std.specs.Prelude.{◌≡◌, List, ◌<◌, length, set};
ghost use Rattle.grammar.specs.Table.{Said};
ghost use Rattle.notation.specs.Sayings.{Saying};
ghost use Rattle.recognise.specs.Tape.{Tape};
ghost use Rattle.names.specs.Answers.{Accepted, tale_said};
ghost use Rattle.names.specs.Tables.{more_of, Roomy, Filled};

use super::bad::counted;
use super::in_text::sort_of;
use super::table::{Told, base_of, count_of, room_of};
use super::walk::{Walk, start, step};

// One more of the sort.
fn one_more(t: Told, sort: u8) -> Told
    requires { Roomy t }
    ensures { result ≡ more_of t sort }
{
    Told {
        whole: t.whole,
        commands: counted(sort, 0, t.commands),
        lookups: counted(sort, 1, t.lookups),
        variables: counted(sort, 2, t.variables),
        nodes: counted(sort, 3, t.nodes),
    }
}

// A row: where the name stands, and its owner. The arrays are lent one by one (no heap, fixed memory): the recogniser has filled the owners' before.
fn put(
    from: &mut [usize; 704],
    to: &mut [usize; 704],
    owner: &mut [usize; 10525],
    j: usize,
    w: Walk,
)
    requires { j < 704 }
    ensures { (from.new ≡ set from.old j w.from) × (to.new ≡ set to.old j w.to) × (owner.new ≡ set owner.old j w.owner) }
{
    from[j] = w.from;
    to[j] = w.to;
    owner[j] = w.owner;
}

// A declaration for which there is no row leaves the tables unused.
pub fn fill(
    text: &[u8],
    from: &mut [usize; 704],
    to: &mut [usize; 704],
    owner: &mut [usize; 10525],
) -> Told
    ensures { (l : List (Said Saying)) → length from.old ≡ 704 → length to.old ≡ 704 → length owner.old ≡ 10525 → Accepted text.now l → Tape text.now owner.old → Filled text.now (tale_said l) from.new to.new owner.new result }
{
    let mut lists = [0usize; 16];
    let mut w = start(owner);
    let mut t = Told {
        whole: true,
        commands: 0,
        lookups: 0,
        variables: 0,
        nodes: 0,
    };
    while let Some(next) = step(text, owner, &mut lists, w) {
        w = next;
        let sort = sort_of(w.role);
        if sort < 4 {
            let n = count_of(t, sort);
            if n >= room_of(sort) {
                return Told {
                    whole: false,
                    commands: 0,
                    lookups: 0,
                    variables: 0,
                    nodes: 0,
                };
            }
            put(from, to, owner, base_of(sort) + n, w);
            t = one_more(t, sort);
        }
    }
    t
}
