// The plans K1 to K10, as bytes.
use super::records::{Entry, Kind, Value, Work};
use super::write;

const X: Entry = Entry::Variable(Kind::Int, 0);

const Y: Entry = Entry::Variable(Kind::Int, 1);

fn int(n: u64) -> Entry {
    Entry::Constant(Value::Int(n))
}

// A list and two assignments, of variables 0 and what, by entries 0 and 1 in the order given.
fn pair(image: &mut [u8], what: u32, first: u32, second: u32) {
    write::header(image, 3, 2, 2, 0);
    write::node(image, 20, None, Work::List);
    write::node(image, 44, Some(0), Work::Assignment(0, first));
    write::node(image, 68, Some(0), Work::Assignment(what, second));
}

// "List owns x = 1, y = 2"
fn one_two(image: &mut [u8]) {
    write::variable(image, 124, 0, Value::Int(1));
    write::variable(image, 140, 0, Value::Int(2));
}

// "children x := y, y := x"
pub fn swap() -> [u8; 156] {
    let mut image = [0u8; 156];
    pair(&mut image, 1, 1, 0);
    write::expr(&mut image, 92, X);
    write::expr(&mut image, 108, Y);
    one_two(&mut image);
    image
}

// "In K1 the children write x := 10 (priority 5), x := 20 (3)", with the priorities a and b
pub fn contest(a: u32, b: u32) -> [u8; 156] {
    let mut image = [0u8; 156];
    pair(&mut image, 0, 0, 1);
    write::put16(&mut image, 48, a);
    write::put16(&mut image, 72, b);
    write::expr(&mut image, 92, int(10));
    write::expr(&mut image, 108, int(20));
    one_two(&mut image);
    image
}

// A plan of one node.
fn lone_node(work: Work) -> [u8; 44] {
    let mut image = [0u8; 44];
    write::header(&mut image, 1, 0, 0, 0);
    write::node(&mut image, 20, None, work);
    image
}

// "Childless list"
pub fn childless() -> [u8; 44] {
    lone_node(Work::List)
}

// "Lone command"
pub fn lone_command() -> [u8; 44] {
    lone_node(Work::Command(7))
}

// A list and its child x := entry 2, Repeat entry 4.
fn repeating(image: &mut [u8]) {
    write::node(image, 20, None, Work::List);
    write::node(image, 44, Some(0), Work::Assignment(0, 2));
    write::put16(image, 62, 4);
}

// x, 1, x + 1, 3, x < 3
fn counting_entries(image: &mut [u8]) {
    write::expr(image, 68, X);
    write::expr(image, 84, int(1));
    write::expr(image, 100, Entry::Add(0, 1));
    write::expr(image, 116, int(3));
    write::expr(image, 132, Entry::Less(0, 3));
}

fn count<const BYTES: usize>(owner: u32, looks: u16) -> [u8; BYTES] {
    let mut image = [0u8; BYTES];
    write::header(&mut image, 2, 5, 1, looks);
    repeating(&mut image);
    counting_entries(&mut image);
    write::variable(&mut image, 148, owner, Value::Int(0));
    image
}

// "x = 0; child x := x + 1, Repeat x < 3"
pub fn counting(owner: u32) -> [u8; 164] {
    count(owner, 0)
}

// The same with a Bool lookup.
pub fn counting_looking(owner: u32) -> [u8; 166] {
    count(owner, 1)
}

// One assignment of variable 0 by entry e of n.
fn lone(image: &mut [u8], n: u16, e: u32) {
    write::header(image, 1, n, 1, 0);
    write::node(image, 20, None, Work::Assignment(0, e));
}

// "Lone assignment, Pre False"
pub fn pre_false() -> [u8; 92] {
    let mut image = [0u8; 92];
    lone(&mut image, 2, 0);
    write::put16(&mut image, 30, 1);
    write::expr(&mut image, 44, int(10));
    write::expr(&mut image, 60, Entry::Constant(Value::Bool(false)));
    write::variable(&mut image, 76, 0, Value::Int(1));
    image
}

// "List with Inv on a Bool lookup, child command"
pub fn guarded() -> [u8; 86] {
    let mut image = [0u8; 86];
    write::header(&mut image, 2, 1, 0, 1);
    write::node(&mut image, 20, None, Work::List);
    write::put16(&mut image, 32, 0);
    write::node(&mut image, 44, Some(0), Work::Command(7));
    write::expr(&mut image, 68, Entry::BoolLookup(0));
    image
}

// One assignment of a variable by two constants joined; the variable is Unknown at first.
fn joined(first: Value, second: Value, join: Entry) -> [u8; 108] {
    let mut image = [0u8; 108];
    lone(&mut image, 3, 2);
    write::expr(&mut image, 44, Entry::Constant(first));
    write::expr(&mut image, 60, Entry::Constant(second));
    write::expr(&mut image, 76, join);
    write::variable(&mut image, 92, 0, Value::Unknown(first.kind()));
    image
}

// "9223372036854775807 + 1"
pub fn over() -> [u8; 108] {
    joined(Value::Int(i64::MAX as u64), Value::Int(1), Entry::Add(0, 1))
}

// "False AND Unknown"
pub fn false_and_unknown() -> [u8; 108] {
    joined(
        Value::Bool(false),
        Value::Unknown(Kind::Bool),
        Entry::And(0, 1),
    )
}
