// What a state holds, in words.
use plexil::State;
use std::fmt;

// The value of a cell: Unknown, a Bool, or the bits as a number.
#[derive(Clone, Copy)]
pub enum Value {
    Unknown,
    Bool(bool),
    Number(u64),
}

impl fmt::Display for Value {
    fn fmt<W: fmt::Write>(&self, f: &mut fmt::Formatter<W>) -> fmt::Result {
        match *self {
            Value::Unknown => f.write_str("Unknown"),
            Value::Bool(false) => f.write_str("False"),
            Value::Bool(true) => f.write_str("True"),
            Value::Number(bits) => write!(f, "{bits}"),
        }
    }
}

// Tags and bits stand side by side, and a tag is a number, since C lends the `State` of plexil.
fn of_cell(tag: u8, bits: u64) -> Value {
    match tag {
        0 => Value::Unknown,
        1 => Value::Bool(bits != 0),
        _ => Value::Number(bits),
    }
}

// Variable 0, under the name x.
pub fn x(s: &State) -> Value {
    of_cell(s.vartags[0], s.varbits[0])
}

// Variable 1, under the name y.
pub fn y(s: &State) -> Value {
    of_cell(s.vartags[1], s.varbits[1])
}

// Outcome and failure of a node, by their codes: C lends the `State` of plexil, where any byte may stand, told as " ?" where it is no code.
#[derive(Clone, Copy)]
pub struct NodeEnd {
    outcome: u8,
    failure: u8,
}

impl fmt::Display for NodeEnd {
    fn fmt<W: fmt::Write>(&self, f: &mut fmt::Formatter<W>) -> fmt::Result {
        f.write_str(match self.outcome {
            0 => " None",
            1 => " Success",
            2 => " Failure",
            3 => " Skipped",
            _ => " ?",
        })?;
        f.write_str(match self.failure {
            0 => "",
            1 => " Pre",
            2 => " Post",
            3 => " Invariant",
            4 => " Parent",
            5 => " WriteLost",
            _ => " ?",
        })
    }
}

fn node_end(s: &State, i: u8) -> NodeEnd {
    NodeEnd {
        outcome: s.outcome[i as usize],
        failure: s.failure[i as usize],
    }
}

// Node 0; below, its two children. Each has a public name of its own over `node_end`, which has the number.
pub fn root(s: &State) -> NodeEnd {
    node_end(s, 0)
}

pub fn first(s: &State) -> NodeEnd {
    node_end(s, 1)
}

pub fn second(s: &State) -> NodeEnd {
    node_end(s, 2)
}

pub fn kept(is_kept: bool) -> &'static str {
    if is_kept { " kept" } else { " changed" }
}
