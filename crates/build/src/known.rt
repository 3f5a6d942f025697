// What the names of a text mean, from the tables of its declarations.
ghost use Rattle.build.specs.Known.{tables_of, StandsAt, MeansVariable, MeansLookup, MeansCommand};

use names::{Tables, command_number};
use recognise::Cursor;

// A text with what is known of its names: the tables of its declarations, and their kinds and numbers; and where the image's entries and variables begin.
#[derive(Clone, Copy)]
pub struct Source<'a> {
    pub names: Tables<'a>,
    pub kind: &'a [usize; 704],
    pub base: usize,
    pub vbase: usize,
}

// A declaration's number and kind.
#[derive(Clone, Copy)]
pub struct Meaning {
    pub number: usize,
    pub kind: usize,
}

// What stands for the declaration i of `count`, whose places begin at `first`; 0 beyond them.
fn standing(kind: &[usize; 704], first: usize, count: usize, i: usize) -> usize
    ensures { StandsAt kind.now first count i result }
{
    if count <= i {
        return 0;
    }
    if 704 <= first {
        return 0;
    }
    if 704 - first <= i {
        return 0;
    }
    kind[first + i]
}

// The variable that the token at the cursor names at the node n.
pub fn variable<'a>(source: Source<'a>, n: usize, at: Cursor) -> Meaning
    ensures { MeansVariable source.entry.names.text.now (tables_of source.entry) n at result.number result.kind }
{
    let Some(name) = source.names.text.get(at.from..at.to) else {
        return Meaning { number: 0, kind: 0 };
    };
    let f = source.names.variable_of(n, name);
    let number = f.unwrap_or(0);
    let kind = standing(source.kind, 320, source.names.told.variables, number);
    Meaning { number, kind }
}

// The lookup that it names.
pub fn lookup<'a>(source: Source<'a>, at: Cursor) -> Meaning
    ensures { MeansLookup source.entry.names.text.now (tables_of source.entry) at result.number result.kind }
{
    let Some(name) = source.names.text.get(at.from..at.to) else {
        return Meaning { number: 0, kind: 0 };
    };
    let f = source.names.lookup_of(name);
    let number = f.unwrap_or(0);
    let kind = standing(source.kind, 256, source.names.told.lookups, number);
    Meaning { number, kind }
}

// The number of the command that it names: the table has the first 256 of them.
pub fn command<'a>(source: Source<'a>, at: Cursor) -> usize
    ensures { MeansCommand source.entry.names.text.now (tables_of source.entry) at result }
{
    let Some(name) = source.names.text.get(at.from..at.to) else {
        return 0;
    };
    let f = source.names.command_of(name);
    let i = f.unwrap_or(0);
    if i < 256 {
        return source.kind[i];
    }
    command_number(source.names.text, source.names.owner, i)
}
