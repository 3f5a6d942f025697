// 42: "the place of the first name, in text order, that is undeclared or a second declaration".
ghost use Rattle.std.specs.Prelude.{◌≡◌, List, ◌<◌};
ghost use Rattle.grammar.specs.Table.{Said};
ghost use Rattle.notation.specs.Sayings.{Saying};
ghost use Rattle.notation.specs.Hearing.{draft_of};
ghost use Rattle.notation.specs.Names.{bad_name};
ghost use Rattle.names.specs.Answers.{Accepted, found_of};
ghost use Rattle.names.specs.Tables.{Prepared};
ghost use Rattle.names.specs.Judging.{index_no, count_no};

use super::judge::{Held, held_from};
use super::table::Tables;
use super::walk::{here, start, step};

// One more of the sort, where the role is to declare one.
pub fn counted(role: u8, sort: u8, n: usize) -> usize
    requires { n < 18446744073709551615 }
    ensures { result ≡ count_no role sort n }
{
    if role == sort {
        return n + 1;
    }
    n
}

// How many of each sort have been declared so far, but for the nodes, which the walk counts.
#[derive(Clone, Copy)]
pub struct Counts {
    pub commands: usize,
    pub lookups: usize,
    pub variables: usize,
}

impl Counts {
    // The number of what a saying of the role declares.
    #[tactic(auto, unfolding(crate::specs::Judging::index_no))]
    fn index_of(self, role: u8, nodes: usize) -> usize
        ensures { result ≡ index_no role self.commands self.lookups self.variables nodes }
    {
        match role {
            0 => self.commands,
            1 => self.lookups,
            2 => self.variables,
            _ => here(nodes),
        }
    }

    // With what a saying of the role declares.
    fn after(self, role: u8) -> Counts
        requires commands { self.commands < 18446744073709551615 }
        requires lookups { self.lookups < 18446744073709551615 }
        requires variables { self.variables < 18446744073709551615 }
        ensures { (result.commands ≡ count_no role 0 self.commands) × (result.lookups ≡ count_no role 1 self.lookups) × (result.variables ≡ count_no role 2 self.variables) }
    {
        Counts {
            commands: counted(role, 0, self.commands),
            lookups: counted(role, 1, self.lookups),
            variables: counted(role, 2, self.variables),
        }
    }
}

pub fn bad_name<'a>(tables: Tables<'a>) -> Option<usize>
    ensures { (l : List (Said Saying)) → Accepted tables.entry.text.now l → Prepared tables.entry l → result ≡ found_of (bad_name (draft_of l)) }
{
    let mut lists = [0usize; 16];
    let mut w = start(tables.owner);
    let mut p = held_from(Held::Nothing, 0, 0);
    let mut counts = Counts {
        commands: 0,
        lookups: 0,
        variables: 0,
    };
    while let Some(next) = step(tables.text, tables.owner, &mut lists, w) {
        w = next;
        let i = counts.index_of(w.role, w.nodes);
        let bad = tables.judge(w, i, p);
        if bad.is_some() {
            return bad;
        }
        p = tables.path_after(w, p);
        counts = counts.after(w.role);
    }
    None
}
