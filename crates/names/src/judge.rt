// Each mention of a name is in order: a declaration is the first of its name, a use has its declaration (42).
// The roles stay numbers: the definition role_number (Roles.antt) has them, and Walk's role, which Judged and PathGoes speak of (Judging.antt).
ghost use Rattle.std.specs.Prelude.{◌≡◌, false, List, [], ◌<◌, ◌≤◌, length, unwrap_or};
ghost use Rattle.plexil.specs.Lists.{at};
ghost use Rattle.grammar.specs.Spelling.{Placed};
ghost use Rattle.grammar.specs.Table.{Said};
ghost use Rattle.notation.specs.Sayings.{Saying};
ghost use Rattle.notation.specs.Hearing.{draft_of};
ghost use Rattle.notation.specs.Names.{is_at, bad_mention};
ghost use Rattle.names.specs.Tale.{parts};
ghost use Rattle.names.specs.Seek.{seek};
ghost use Rattle.names.specs.Answers.{Accepted, found_of, tale_said};
ghost use Rattle.names.specs.Tables.{Prepared};
ghost use Rattle.names.specs.Judging.{part_of, settled_by, PathIs, WalkIn, held_from, unless_of, followed_of, FirstPart, NextPart, PathIn, Judged, PathGoes};

use super::table::Tables;
use super::walk::{Walk, here};

// What is held: nothing, a name alone, or a path that has been followed.
#[derive(Clone, Copy)]
pub enum Held {
    Nothing,
    Name,
    Route,
}

// A held name or path. Its first name stands from `from` to `to`; a path ends at the node where it leads, or it is lost at the place of its first
// part that is not found.
#[derive(Clone, Copy)]
pub struct Path {
    pub from: usize,
    pub to: usize,
    pub held: Held,
    pub end: Result<usize, usize>,
}

// A name at the place, if it is not in order.
fn unless(fine: bool, place: usize) -> Option<usize>
    ensures { result ≡ found_of (unless_of fine place) }
{
    if fine {
        return None;
    }
    Some(place)
}

// The path that stands from `from`, after the part at `place` has been looked for.
#[tactic(auto, unfolding(crate::specs::Judging::followed_of))]
fn followed(from: usize, to: usize, f: Option<usize>, place: usize) -> Path
    ensures { result ≡ followed_of from to f place }
{
    Path {
        held: Held::Route,
        from,
        to,
        end: f.ok_or(place),
    }
}

// A name alone, or none.
pub fn held_from(held: Held, from: usize, to: usize) -> Path
    ensures { result ≡ held_from held from to }
{
    Path {
        held,
        from,
        to,
        end: Ok(0),
    }
}

impl<'a> Tables<'a> {
    // The declaration i of the sort is the first of its owner and name.
    fn is_first(self, sort: u8, i: usize, m: usize, x: &[u8]) -> bool
        requires { sort < 4 }
        ensures { (l : List (Said Saying)) → Accepted self.entry.text.now l → Prepared self.entry l → result ≡ is_at i (seek sort m x.now (tale_said l)) }
    {
        match self.find(sort, m, x) {
            Some(first) => i == first,
            None => false,
        }
    }

    // A path's first part upwards from node n, each later one among the children of node n.
    fn sought(self, first: bool, n: usize, x: &[u8]) -> Option<usize>
        requires { n < 18446744073709551615 }
        ensures { ((l : List (Said Saying)) → Accepted self.entry.text.now l → Prepared self.entry l → result ≡ found_of (part_of first (draft_of l) n x.now)) × (unwrap_or result 0 < 18446744073709551615) }
    {
        if first {
            return self.node_up(n, x);
        }
        self.child_of(n, x)
    }

    // A path with its first part followed.
    fn path_first(self, n: usize, p: Path) -> Path
        requires { (n < 18446744073709551615) × PathIn self.text.now p }
        ensures { ((l : List (Said Saying)) → Accepted self.entry.text.now l → Prepared self.entry l → FirstPart self.entry.text.now (draft_of l) n p result) × PathIn self.entry.text.now result }
    {
        match p.held {
            Held::Name => {
                let a = p.from;
                let e = p.to;
                let f = self.sought(true, n, &self.text[a..e]);
                followed(a, e, f, a)
            }
            _ => p,
        }
    }

    // A path followed one part further.
    fn path_next(self, p: Path, a: usize, e: usize) -> Path
        requires { (a ≤ e) × (e ≤ length self.text.now) × PathIn self.text.now p }
        ensures { ((l : List (Said Saying)) → Accepted self.entry.text.now l → Prepared self.entry l → NextPart self.entry.text.now (draft_of l) p a e result) × PathIn self.entry.text.now result }
    {
        match p.end {
            Ok(node) => {
                let f = self.sought(false, node, &self.text[a..e]);
                followed(p.from, p.to, f, a)
            }
            Err(_) => p,
        }
    }

    // A question ends a path: each part is a mention.
    fn ask(self, n: usize, p: Path) -> Option<usize>
        requires { (n < 18446744073709551615) × PathIn self.text.now p }
        ensures { (l : List (Said Saying)) → Accepted self.entry.text.now l → Prepared self.entry l → (ts : List Placed) → PathIs self.entry.text.now (draft_of l) n ts p → result ≡ found_of (bad_mention (draft_of l) (parts n [] ts)) }
    {
        let q = self.path_first(n, p);
        match q.held {
            Held::Route => q.end.err(),
            _ => None,
        }
    }

    // A held name was a variable's.
    fn settle(self, n: usize, p: Path) -> Option<usize>
        requires { PathIn self.text.now p }
        ensures { (l : List (Said Saying)) → Accepted self.entry.text.now l → Prepared self.entry l → (ts : List Placed) → PathIs self.entry.text.now (draft_of l) n ts p → result ≡ found_of (bad_mention (draft_of l) (settled_by n ts)) }
    {
        match p.held {
            Held::Nothing => None,
            _ => {
                let a = p.from;
                let e = p.to;
                let f = self.variable_of(n, &self.text[a..e]);
                unless(f.is_some(), a)
            }
        }
    }

    // What a saying mentions is in order; i is the number of what it declares.
    pub(crate) fn judge(self, w: Walk, i: usize, p: Path) -> Option<usize>
        requires { WalkIn self.text.now w × PathIn self.text.now p }
        ensures { (l : List (Said Saying)) → Accepted self.entry.text.now l → Prepared self.entry l → Judged self.entry.text.now l w i p result }
    {
        let role = w.role;
        let a = w.from;
        let e = w.to;
        let n = here(w.nodes);
        match role {
            0..=3 => unless(self.is_first(role, i, w.owner, &self.text[a..e]), a),
            7 => unless(self.command_of(&self.text[a..e]).is_some(), a),
            8 => unless(self.variable_of(n, &self.text[a..e]).is_some(), a),
            9 => unless(self.lookup_of(&self.text[a..e]).is_some(), a),
            12 => self.ask(n, p),
            13 => self.settle(n, p),
            _ => None,
        }
    }

    // The held name or path after a saying.
    pub(crate) fn path_after(self, w: Walk, p: Path) -> Path
        requires { WalkIn self.text.now w × PathIn self.text.now p }
        ensures { ((l : List (Said Saying)) → Accepted self.entry.text.now l → Prepared self.entry l → PathGoes self.entry.text.now l w p result) × PathIn self.entry.text.now result }
    {
        let role = w.role;
        let a = w.from;
        let e = w.to;
        match role {
            10 => held_from(Held::Name, a, e),
            11 => self.path_next(self.path_first(here(w.nodes), p), a, e),
            12 | 13 => held_from(Held::Nothing, 0, 0),
            _ => p,
        }
    }
}
