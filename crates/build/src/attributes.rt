// What a node says of itself: its conditions, its priority and its variables.
ghost use Rattle.build.specs.Known.{tables_of};
ghost use Rattle.build.specs.Telling.{Expresses, Ranks, Begins, Describes, Attributed};
ghost use Rattle.std.specs.Prelude.{◌≡◌, length};

use super::entries::last;
use super::expressions::boolean;
use super::known::Source;
use super::laying::{add_variable, set_initial};
use super::literals::word;
use super::nodes::Course;
use super::steps::{Progress, next};
use recognise::Cursor;
use words::number_of;

// The cursor, which has heard the next saying; how many entries and variables there are, and the node's priority.
#[derive(Clone, Copy)]
pub struct Described {
    pub at: Cursor,
    pub entries: usize,
    pub variables: usize,
    pub priority: usize,
}

// An expression, to its end.
pub fn expression<'a>(
    source: Source<'a>,
    image: &mut [u8; 41108],
    pending: &mut [usize; 6147],
    node: usize,
    c: Cursor,
    count: usize,
) -> Progress
    ensures { Expresses source.entry.names.text.now (tables_of source.entry) node source.entry.base c count pending.old image.old result.at result.entries pending.new image.new }
{
    boolean(
        source,
        image,
        pending,
        node,
        c,
        count,
        source.names.text.len(),
    )
}

// The priority that the cursor has heard.
fn rank(text: &[u8], at: Cursor) -> usize
    ensures { Ranks text.now at result }
{
    match text.get(at.from..at.to) {
        Some(digits) => number_of(digits) as usize,
        None => 0,
    }
}

// The initial value that it has heard: the constants' sayings have numbers higher by 8.
fn initial(text: &[u8], at: Cursor) -> u64
    ensures { Begins text.now at result }
{
    let says = at.says;
    if says > 30 {
        return 0;
    }
    word(text, says + 8, at.from, at.to)
}

// One attribute: a condition, the priority, a variable or its initial value.
fn attribute<'a>(
    source: Source<'a>,
    image: &mut [u8; 41108],
    pending: &mut [usize; 6147],
    given: &mut [usize; 7],
    node: usize,
    a: Described,
) -> Described
    ensures { Describes source.entry.names.text.now (tables_of source.entry) node source.entry.base source.entry.vbase a pending.old given.old image.old result pending.new given.new image.new × (length given.new ≡ length given.old) }
{
    let at = a.at;
    let says = at.says;
    if says < 12 {
        return a;
    }
    if says < 19 {
        let e = expression(source, image, pending, node, at, a.entries);
        given[(says - 12) as usize] = last(e.entries);
        return Described {
            at: next(source.names, e.at),
            entries: e.entries,
            ..a
        };
    }
    let then = next(source.names, at);
    if says == 19 {
        return Described {
            at: then,
            priority: rank(source.names.text, at),
            ..a
        };
    }
    if says < 23 {
        return Described {
            at: then,
            variables: add_variable(image, source.vbase, a.variables, says - 20, node),
            ..a
        };
    }
    set_initial(
        image,
        source.vbase,
        a.variables,
        initial(source.names.text, at),
    );
    Described { at: then, ..a }
}

// The attributes of the node that has begun, up to what it is.
pub fn attributes<'a>(
    source: Source<'a>,
    image: &mut [u8; 41108],
    pending: &mut [usize; 6147],
    given: &mut [usize; 7],
    c: Course,
    left: usize,
) -> Described
    ensures { Attributed source.entry.names.text.now (tables_of source.entry) source.entry.base source.entry.vbase left c pending.old given.old image.old result pending.new given.new image.new × (length given.new ≡ length given.old) }
{
    let node = c.nodes;
    let mut a = Described {
        at: next(source.names, c.at),
        entries: c.entries,
        variables: c.variables,
        priority: 0,
    };
    for _ in 0..left {
        let at = a.at;
        if at.says < 12 {
            return a;
        }
        a = attribute(source, image, pending, given, node, a);
    }
    a
}
