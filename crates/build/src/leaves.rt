// Operands that are no group and no NOT, "numeric" expressions among them: constants, lookups, variables, and questions about a node.
ghost use Rattle.build.specs.Known.{tables_of};
ghost use Rattle.build.specs.Steps.{Leaves};
ghost use Rattle.build.specs.Named.{Asks, Variables, Lookups};

use super::entries::{LOOKUP, NOT, VARIABLE, emit};
use super::known::{Source, lookup, variable};
use super::literals::literal;
use super::paths::{ask_code, ask_not, ask_op, walk};
use super::steps::{Progress, next};
use super::write::{BLANK, Entry};
use recognise::Cursor;

// A question about a node, whose name is the token at the cursor; what is said after it has been heard.
fn question<'a>(
    source: Source<'a>,
    image: &mut [u8; 41108],
    node: usize,
    at: Cursor,
    after: Cursor,
    count: usize,
    left: usize,
) -> Progress
    ensures { Asks source.entry.names.text.now (tables_of source.entry) node source.entry.base left at after count image.old result.at result.entries image.new }
{
    let q = walk(source, node, at, after, left);
    let ask = q.at;
    let says = ask.says;
    let asked = Entry {
        op: ask_op(says),
        kind: 0,
        a: q.number,
        b: ask_code(says),
        word: 0,
    };
    let n = emit(image, source.base, count, asked);
    let end = next(source.names, ask);
    if ask_not(says) == 0 {
        return Progress {
            at: end,
            entries: n,
        };
    }
    let not = Entry {
        op: NOT,
        a: count,
        ..BLANK
    };
    let m = emit(image, source.base, n, not);
    Progress {
        at: end,
        entries: m,
    }
}

// The entry of a variable.
fn variable_entry<'a>(
    source: Source<'a>,
    image: &mut [u8; 41108],
    node: usize,
    at: Cursor,
    count: usize,
) -> usize
    ensures { Variables source.entry.names.text.now (tables_of source.entry) node source.entry.base at count image.old result image.new }
{
    let v = variable(source, node, at);
    let e = Entry {
        op: VARIABLE,
        kind: (v.kind % 256) as u8,
        a: v.number,
        b: 0,
        word: 0,
    };
    emit(image, source.base, count, e)
}

// The entry of a lookup.
fn lookup_entry<'a>(source: Source<'a>, image: &mut [u8; 41108], at: Cursor, count: usize) -> usize
    ensures { Lookups source.entry.names.text.now (tables_of source.entry) source.entry.base at count image.old result image.new }
{
    let v = lookup(source, at);
    let e = Entry {
        op: LOOKUP,
        kind: (v.kind % 256) as u8,
        a: v.number,
        b: 0,
        word: 0,
    };
    emit(image, source.base, count, e)
}

// An operand, whose first saying has been heard.
pub fn numeric<'a>(
    source: Source<'a>,
    image: &mut [u8; 41108],
    node: usize,
    at: Cursor,
    count: usize,
    left: usize,
) -> Progress
    ensures { Leaves source.entry.names.text.now (tables_of source.entry) node source.entry.base left at count image.old result.at result.entries image.new }
{
    let after = next(source.names, at);
    if at.says < 42 {
        let n = literal(source, image, at, count);
        return Progress {
            at: after,
            entries: n,
        };
    }
    if at.says == 42 {
        let n = lookup_entry(source, image, at, count);
        return Progress {
            at: after,
            entries: n,
        };
    }
    if after.says < 79 {
        return question(source, image, node, at, after, count, left);
    }
    let n = variable_entry(source, image, node, at, count);
    Progress {
        at: after,
        entries: n,
    }
}
