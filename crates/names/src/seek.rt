// Names sought: in the tables where they have the whole text, else in the text itself.
ghost use Rattle.std.specs.Prelude.{◌≡◌, List, ◌<◌, unwrap_or};
ghost use Rattle.grammar.specs.Table.{Said};
ghost use Rattle.notation.specs.Sayings.{Saying};
ghost use Rattle.names.specs.Seek.{seek, node_in};
ghost use Rattle.names.specs.Answers.{Accepted, found_of, tale_said, NodeIs, Lies};
ghost use Rattle.names.specs.Tables.{Prepared};

use super::answers::{NOBODY, NodeFound};
use super::in_text;
use super::table::{Tables, base_of, count_of, room_of};

impl<'a> Tables<'a> {
    // The first declaration of the sort, the owner m and the name x.
    pub(crate) fn find(self, sort: u8, m: usize, x: &[u8]) -> Option<usize>
        requires { sort < 4 }
        ensures { ((l : List (Said Saying)) → Accepted self.entry.text.now l → Prepared self.entry l → result ≡ found_of (seek sort m x.now (tale_said l))) × (unwrap_or result 0 < 18446744073709551615) }
    {
        if self.told.whole {
            let count = count_of(self.told, sort);
            if count > room_of(sort) {
                return None;
            }
            let base = base_of(sort);
            return self.first_row(base, count, m, x);
        }
        in_text::find(self.text, self.owner, sort, m, x)
    }

    // The node of a number.
    pub(crate) fn node(self, n: usize) -> NodeFound
        ensures { ((l : List (Said Saying)) → Accepted self.entry.text.now l → Prepared self.entry l → NodeIs self.entry.text.now (node_in (tale_said l) n) result) × Lies self.entry.text.now result }
    {
        if self.told.whole {
            if n >= self.told.nodes {
                return NOBODY;
            }
            if n >= 256 {
                return NOBODY;
            }
            return self.row(448 + n);
        }
        in_text::node(self.text, self.owner, n)
    }
}
