// A walk through a text from saying to saying, with what a name needs to be told of: the nodes begun and the lists open.
ghost use Rattle.std.specs.Prelude.{◌≡◌, ◌+◌, ◌<◌, ◌-◌};
ghost use Rattle.names.specs.Walking.{end_no, owner_at, owner_no, lists_no, nodes_no, depth_no, Bounded, Stepped, Started};

use super::roles::role_of;
use recognise::Cursor;

// The cursor; the role of what it heard last, where its name stands and its owner; how many nodes have begun and how many lists are open.
#[derive(Clone, Copy)]
pub struct Walk {
    pub cursor: Cursor,
    pub from: usize,
    pub to: usize,
    pub owner: usize,
    pub nodes: usize,
    pub depth: usize,
    pub role: u8,
}

// The number of the node that is being told of.
pub fn here(nodes: usize) -> usize
    ensures { result ≡ nodes - 1 }
{
    if nodes == 0 { 0 } else { nodes - 1 }
}

// The owner of a node that begins.
fn owner_at(lists: &[usize; 16], depth: usize) -> usize
    ensures { result ≡ owner_at lists.now depth }
{
    if depth == 0 {
        return 0;
    }
    if depth > 16 {
        return 0;
    }
    let i = depth - 1;
    lists[i]
}

// The owner of what a saying of the role declares.
#[tactic(auto, unfolding(crate::specs::Walking::owner_no))]
fn owner_of(lists: &[usize; 16], role: u8, nodes: usize, depth: usize) -> usize
    ensures { result ≡ owner_no lists.now role nodes depth }
{
    match role {
        2 => here(nodes),
        3 | 4 => owner_at(lists, depth),
        _ => 0,
    }
}

// A list that opens is kept, where it is one of the outermost 16.
fn keep(lists: &mut [usize; 16], role: u8, nodes: usize, depth: usize)
    ensures { lists.new ≡ lists_no lists.old role nodes depth }
{
    if role == 5 {
        if depth < 16 {
            lists[depth] = nodes;
        }
    }
}

#[tactic(auto, unfolding(crate::specs::Walking::nodes_no))]
fn nodes_after(role: u8, nodes: usize) -> usize
    requires { nodes < 18446744073709551615 }
    ensures { result ≡ nodes_no role nodes }
{
    match role {
        3 | 4 => nodes + 1,
        _ => nodes,
    }
}

#[tactic(auto, unfolding(crate::specs::Walking::depth_no))]
fn depth_after(role: u8, depth: usize) -> usize
    requires { depth < 18446744073709551615 }
    ensures { result ≡ depth_no role depth }
{
    match role {
        5 => depth + 1,
        6 => here(depth),
        _ => depth,
    }
}

// The end of the name: an unnamed node has the empty name.
fn end_of(role: u8, from: usize, to: usize) -> usize
    ensures { result ≡ end_no role from to }
{
    if role == 4 { from } else { to }
}

// At the beginning of a text.
pub fn start(owner: &[usize; 10525]) -> Walk
    ensures { Started owner.now result }
{
    let c = recognise::begin(owner);
    Walk {
        cursor: c,
        role: 15,
        from: 0,
        to: 0,
        owner: 0,
        nodes: 0,
        depth: 0,
    }
}

// To the next saying, where there is one.
// Inlined: a walk is 120 bytes, which each loop over a text would else copy for each saying: a reading takes a quarter longer without.
#[inline(always)]
pub fn step<'a>(
    text: &'a [u8],
    owner: &'a [usize; 10525],
    lists: &mut [usize; 16],
    w: Walk,
) -> Option<Walk>
    requires { Bounded w }
    ensures { Stepped text.now owner.now lists.old w lists.new result }
{
    let c = w.cursor;
    let before = c.at;
    let d = recognise::next(text, owner, c);
    let at = d.at;
    if at <= before {
        return None;
    }
    let says = d.says;
    if says == 94 {
        return None;
    }
    let role = role_of(says);
    let nodes = w.nodes;
    let depth = w.depth;
    let from = d.from;
    let to = end_of(role, from, d.to);
    let owner = owner_of(lists, role, nodes, depth);
    keep(lists, role, nodes, depth);
    Some(Walk {
        cursor: d,
        role,
        from,
        to,
        owner,
        nodes: nodes_after(role, nodes),
        depth: depth_after(role, depth),
    })
}
