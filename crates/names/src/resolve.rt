// Which declaration a name means: up from the node that uses it, down a path.
ghost use Rattle.std.specs.Prelude.{◌≡◌, ℕ, List, suc, ◌<◌, unwrap_or};
ghost use Rattle.plexil.specs.Lists.{Found};
ghost use Rattle.grammar.specs.Table.{Said};
ghost use Rattle.notation.specs.Sayings.{Saying};
ghost use Rattle.notation.specs.Hearing.{draft_of, parent_in};
ghost use Rattle.notation.specs.Names.{command_of, lookup_of, variable_of, child_of, node_at, node_up};
ghost use Rattle.names.specs.Answers.{Accepted, found_of, ParentOf};
ghost use Rattle.names.specs.Climb.{Finds, go_up};
ghost use Rattle.names.specs.Tables.{Prepared};

use super::table::Tables;
use words::same;

impl<'a> Tables<'a> {
    // "the first counts"
    pub fn command_of(self, x: &[u8]) -> Option<usize>
        ensures { (l : List (Said Saying)) → Accepted self.entry.text.now l → Prepared self.entry l → result ≡ found_of (command_of (draft_of l) x.now) }
    {
        self.find(0, 0, x)
    }

    pub fn lookup_of(self, x: &[u8]) -> Option<usize>
        ensures { (l : List (Said Saying)) → Accepted self.entry.text.now l → Prepared self.entry l → result ≡ found_of (lookup_of (draft_of l) x.now) }
    {
        self.find(1, 0, x)
    }

    // The first child of node m that is named x.
    pub fn child_of(self, m: usize, x: &[u8]) -> Option<usize>
        requires { m < 18446744073709551615 }
        ensures { ((l : List (Said Saying)) → Accepted self.entry.text.now l → Prepared self.entry l → result ≡ found_of (child_of (draft_of l) m x.now)) × (unwrap_or result 0 < 18446744073709551615) }
    {
        self.find(3, m + 1, x)
    }

    // The parent of a node; 65535 of the root, as the definition parent_in (notation, Hearing.antt) has it.
    fn parent_of(self, n: usize) -> usize
        ensures { ((l : List (Said Saying)) → Accepted self.entry.text.now l → Prepared self.entry l → ParentOf (draft_of l) n result) × (result < 18446744073709551615) }
    {
        let e = self.node(n);
        if e.owner == 0 {
            return 65535;
        }
        e.owner - 1
    }

    // Up from node n: what `own` answers of the node itself, or of the nearest node above of which it answers one.
    fn climb<F: Fn(usize) -> Option<usize>>(self, n: usize, own: F) -> Option<usize>
        requires here { F.pre own n }
        requires above { (i : ℕ) → i < 18446744073709551615 → F.pre own i }
        ensures climbed { (l : List (Said Saying)) → Accepted self.entry.text.now l → Prepared self.entry l → (f : ℕ → Found) → Finds (F.post own) f → result ≡ found_of (go_up f (parent_in (draft_of l).nodes) (suc n) n) }
        ensures answered { (i : ℕ) × (i < 18446744073709551616) × F.post own i result }
    {
        let mut node = n;
        for _ in 0..n {
            let there = own(node);
            if there.is_some() {
                return there;
            }
            if node == 0 {
                return there;
            }
            node = self.parent_of(node);
        }
        own(node)
    }

    // "A variable is the one of the node itself or of the nearest node above that declares it"
    pub fn variable_of(self, n: usize, x: &[u8]) -> Option<usize>
        ensures { (l : List (Said Saying)) → Accepted self.entry.text.now l → Prepared self.entry l → result ≡ found_of (variable_of (draft_of l) n x.now) }
    {
        self.climb(n, |i| self.find(2, i, x))
    }

    // Node n if it is named x, else its child.
    fn node_at(self, n: usize, x: &[u8]) -> Option<usize>
        requires { n < 18446744073709551615 }
        ensures { ((l : List (Said Saying)) → Accepted self.entry.text.now l → Prepared self.entry l → result ≡ found_of (node_at (draft_of l) n x.now)) × (unwrap_or result 0 < 18446744073709551615) }
    {
        let e = self.node(n);
        let a = e.from;
        let b = e.to;
        if same(&self.text[a..b], x) {
            return Some(n);
        }
        self.child_of(n, x)
    }

    // "for the node itself, then its parent, and so on up: that node, else a child of it"
    pub fn node_up(self, n: usize, x: &[u8]) -> Option<usize>
        requires { n < 18446744073709551615 }
        ensures { ((l : List (Said Saying)) → Accepted self.entry.text.now l → Prepared self.entry l → result ≡ found_of (node_up (draft_of l) (suc n) n x.now)) × (unwrap_or result 0 < 18446744073709551615) }
    {
        self.climb(n, |i| self.node_at(i, x))
    }
}
