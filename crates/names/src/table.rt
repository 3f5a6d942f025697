// Tables of declarations, for texts within the limits: in each array the rows of the commands, the lookups, the variables and the nodes, one sort after another.
ghost use Rattle.std.specs.Prelude.{◌≡◌, ◌<◌, ◌≤◌, ◌+◌, unwrap_or};
ghost use Rattle.notation.specs.Names.{find_from};
ghost use Rattle.names.specs.Seek.{is_called};
ghost use Rattle.names.specs.Answers.{found_of, Lies, NodeIs};
ghost use Rattle.names.specs.Tables.{base_of, room_of, count_of, row_at, rows, Fair};

use super::answers::{NOBODY, NodeFound};
use super::in_text::is_called;

// How many rows each sort has; `whole` where the tables have every declaration of the text.
#[derive(Clone, Copy)]
pub struct Told {
    pub whole: bool,
    pub commands: usize,
    pub lookups: usize,
    pub variables: usize,
    pub nodes: usize,
}

// A text and the tables of its declarations: row by row where the name begins, where it ends, and its owner. Behind the owners lies the text's tape.
#[derive(Clone, Copy)]
pub struct Tables<'a> {
    pub text: &'a [u8],
    pub from: &'a [usize; 704],
    pub to: &'a [usize; 704],
    pub owner: &'a [usize; 10525],
    pub told: Told,
}

// Where a sort's rows begin, how many there can be and how many there are: the sorts are the definitions' numbers (Tables.antt: base_of, room_of, count_of).
#[tactic(auto, unfolding(crate::specs::Tables::base_of))]
pub fn base_of(sort: u8) -> usize
    ensures { result ≡ base_of sort }
{
    match sort {
        0 => 0,
        1 => 256,
        2 => 320,
        _ => 448,
    }
}

#[tactic(auto, unfolding(crate::specs::Tables::room_of))]
pub fn room_of(sort: u8) -> usize
    ensures { result ≡ room_of sort }
{
    match sort {
        0 => 256,
        1 => 64,
        2 => 128,
        _ => 256,
    }
}

#[tactic(auto, unfolding(crate::specs::Tables::count_of))]
pub fn count_of(told: Told, sort: u8) -> usize
    ensures { result ≡ count_of told sort }
{
    match sort {
        0 => told.commands,
        1 => told.lookups,
        2 => told.variables,
        _ => told.nodes,
    }
}

impl<'a> Tables<'a> {
    // Among `count` rows from place `base` on the first of the owner m and the name x.
    pub(crate) fn first_row(self, base: usize, count: usize, m: usize, x: &[u8]) -> Option<usize>
        requires { base + count ≤ 704 }
        ensures { (Fair self.entry.text.now self.entry.from.now self.entry.to.now base count → result ≡ found_of (find_from 0 (is_called m x.now) (rows self.entry.text.now self.entry.from.now self.entry.to.now self.entry.owner.now base count))) × (unwrap_or result 0 < 18446744073709551615) }
    {
        for i in 0..count {
            let j = base + i;
            let name = self.text.get(self.from[j]..self.to[j])?;
            if is_called(name, self.owner[j], m, x) {
                return Some(i);
            }
        }
        None
    }

    // The row at place j, where its name lies in the text.
    pub(crate) fn row(self, j: usize) -> NodeFound
        requires { j < 704 }
        ensures { (Fair self.entry.text.now self.entry.from.now self.entry.to.now j 1 → NodeIs self.entry.text.now (row_at self.entry.text.now self.entry.from.now self.entry.to.now self.entry.owner.now j) result) × Lies self.entry.text.now result }
    {
        let from = self.from[j];
        let to = self.to[j];
        match self.text.get(from..to) {
            Some(_) => NodeFound {
                from,
                to,
                owner: self.owner[j],
            },
            None => NOBODY,
        }
    }
}
