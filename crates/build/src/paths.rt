// Paths to nodes, and what is asked of a node.
ghost use Rattle.std.specs.Prelude.{◌<◌, unwrap_or};
ghost use Rattle.build.specs.Known.{tables_of, MeansFirst, MeansPart};
ghost use Rattle.build.specs.Questions.{Walks, OfQuestion, op_of, code_in, not_in};

use super::known::Source;
use super::rows::row;
use super::steps::next;
use recognise::Cursor;

// A question that has been heard, and the number of the node that it is about.
#[derive(Clone, Copy)]
pub struct Question {
    pub at: Cursor,
    pub number: usize,
}

// The first part of a path, at the node n.
fn first_part<'a>(source: Source<'a>, n: usize, at: Cursor) -> Option<usize>
    ensures { MeansFirst source.entry.names.text.now (tables_of source.entry) n at result }
{
    let name = source.names.text.get(at.from..at.to)?;
    if n >= 65535 {
        return None;
    }
    source.names.node_up(n, name)
}

// A later part, below what was found.
fn part<'a>(source: Source<'a>, m: Option<usize>, at: Cursor) -> Option<usize>
    requires { unwrap_or m 0 < 18446744073709551615 }
    ensures { MeansPart source.entry.names.text.now (tables_of source.entry) m at result }
{
    let name = source.names.text.get(at.from..at.to)?;
    let above = m?;
    source.names.child_of(above, name)
}

// Along the path that begins with the token at `at` to its question; the saying after that token has been heard at c.
pub fn walk<'a>(source: Source<'a>, node: usize, at: Cursor, c: Cursor, left: usize) -> Question
    ensures { Walks source.entry.names.text.now (tables_of source.entry) node left at c result.at result.number }
{
    let mut found = first_part(source, node, at);
    let mut to_ask = c;
    for _ in 0..left {
        if to_ask.says != 44 {
            return Question {
                at: to_ask,
                number: found.unwrap_or(0),
            };
        }
        found = part(source, found, to_ask);
        to_ask = next(source.names, to_ask);
    }
    Question {
        at: to_ask,
        number: found.unwrap_or(0),
    }
}

// By the number of what is asked, from 45 on: "3 status of node a is b; 4 outcome ..; 5 failure", the code b, and 1 for "!="
const OPS: [u8; 34] = [
    3, 3, 3, 3, 3, 3, 3, 3, 3, 3, 3, 3, 3, 3, 4, 4, 4, 4, 4, 4, 4, 4, 5, 5, 5, 5, 5, 5, 5, 5, 5, 5,
    5, 5,
];

const CODES: [u8; 34] = [
    0, 1, 2, 3, 4, 5, 6, 0, 1, 2, 3, 4, 5, 6, 0, 1, 2, 3, 0, 1, 2, 3, 0, 1, 2, 3, 4, 5, 0, 1, 2, 3,
    4, 5,
];

const NOTS: [u8; 34] = [
    0, 0, 0, 0, 0, 0, 0, 1, 1, 1, 1, 1, 1, 1, 0, 0, 0, 0, 1, 1, 1, 1, 0, 0, 0, 0, 0, 0, 1, 1, 1, 1,
    1, 1,
];

pub fn ask_op(says: u8) -> u8
    ensures { OfQuestion op_of says result }
{
    row(&OPS, 45, says)
}

pub fn ask_code(says: u8) -> usize
    ensures { OfQuestion code_in says result }
{
    row(&CODES, 45, says) as usize
}

pub fn ask_not(says: u8) -> u8
    ensures { OfQuestion not_in says result }
{
    row(&NOTS, 45, says)
}
