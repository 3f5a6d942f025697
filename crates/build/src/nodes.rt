// Nodes: "node" and "list", which call each other with what is left falling.
ghost use Rattle.std.specs.Prelude.{◌≡◌, length};
ghost use Rattle.build.specs.Known.{tables_of};
ghost use Rattle.build.specs.Telling.{Tasks, ReadsNode, ReadsList};

use super::attributes::{Described, attributes, expression};
use super::entries::last;
use super::known::{Source, command, variable};
use super::laying::add_node;
use super::steps::next;
use super::write::{ASSIGNMENT, COMMAND, LIST, NOTHING, Record};
use recognise::Cursor;

// Where a reader of nodes stands, and how many nodes, entries and variables there are.
#[derive(Clone, Copy)]
pub struct Course {
    pub at: Cursor,
    pub nodes: usize,
    pub entries: usize,
    pub variables: usize,
}

impl Described {
    // Where a reader of nodes stands after these attributes, with so many nodes.
    fn course(self, nodes: usize) -> Course
        ensures { result ≡ record { at = self.at; nodes = nodes; entries = self.entries; variables = self.variables } }
    {
        Course {
            at: self.at,
            nodes,
            entries: self.entries,
            variables: self.variables,
        }
    }
}

// "Command" or "Assignment", whose first saying has been heard.
fn task<'a>(
    source: Source<'a>,
    image: &mut [u8; 41108],
    pending: &mut [usize; 6147],
    given: &'a [usize; 7],
    node: usize,
    parent: usize,
    a: Described,
) -> Course
    requires { length given.now ≡ 7 }
    ensures { Tasks source.entry.names.text.now (tables_of source.entry) node source.entry.base source.entry.vbase parent a pending.old given.now image.old result pending.new image.new }
{
    let at = a.at;
    if at.says == 10 {
        let called = Record {
            parent,
            form: COMMAND,
            priority: a.priority,
            given,
            what: command(source, at),
            value: NOTHING,
        };
        return a.course(add_node(image, node, called));
    }
    let e = expression(source, image, pending, node, at, a.entries);
    let assigned = Record {
        parent,
        form: ASSIGNMENT,
        priority: a.priority,
        given,
        what: variable(source, node, at).number,
        value: last(e.entries),
    };
    Course {
        at: e.at,
        entries: e.entries,
        ..a.course(add_node(image, node, assigned))
    }
}

// A node that has begun, below the node `parent`.
#[cycle(list_node)]
pub fn node<'a>(
    source: Source<'a>,
    image: &mut [u8; 41108],
    pending: &mut [usize; 6147],
    parent: usize,
    c: Course,
    left: usize,
) -> Course
    ensures { ReadsNode source.entry.names.text.now (tables_of source.entry) source.entry.base source.entry.vbase parent left c pending.old image.old result pending.new image.new }
{
    let mut given = [NOTHING; 7];
    let a = attributes(source, image, pending, &mut given, c, left);
    let number = c.nodes;
    let at = a.at;
    if at.says != 8 {
        return task(source, image, pending, &given, number, parent, a);
    }
    let listed = Record {
        parent,
        form: LIST,
        priority: a.priority,
        given: &given,
        what: NOTHING,
        value: NOTHING,
    };
    let n = add_node(image, number, listed);
    let inner = a.course(n);
    if left == 0 {
        return inner;
    }
    list(source, image, pending, number, inner, left - 1)
}

// The nodes of the list whose node is `above`, to its end.
#[cycle(list_node)]
pub fn list<'a>(
    source: Source<'a>,
    image: &mut [u8; 41108],
    pending: &mut [usize; 6147],
    above: usize,
    c: Course,
    left: usize,
) -> Course
    ensures { ReadsList source.entry.names.text.now (tables_of source.entry) source.entry.base source.entry.vbase above left c pending.old image.old result pending.new image.new }
{
    let mut s = c;
    for _ in 0..left {
        let at = next(source.names, s.at);
        let heard = Course { at, ..s };
        if at.says == 9 {
            return heard;
        }
        s = node(source, image, pending, above, heard, left - 1);
    }
    s
}
