// A small assembler: a record is a row of 16-bit numbers, each least byte first.
use super::records::{Entry, Kind, Value, Work};

// Past the end nothing is stored.
pub fn put(buf: &mut [u8], at: usize, b: u8) {
    if let Some(place) = buf.get_mut(at) {
        *place = b;
    }
}

// The low 16 bits of n.
pub fn put16(buf: &mut [u8], at: usize, n: u32) {
    let [low, high, _, _] = n.to_le_bytes();
    put(buf, at, low);
    put(buf, at.wrapping_add(1), high);
}

pub(crate) fn numbers(buf: &mut [u8], at: usize, row: &[u32]) {
    let mut place = at;
    for n in row {
        put16(buf, place, *n);
        place = place.wrapping_add(2);
    }
}

// "Header, ten 16-bit numbers", for these counts of nodes, expressions, variables and lookups.
pub(crate) fn header(buf: &mut [u8], n: u16, e: u16, v: u16, l: u16) {
    let exprs = 20 + 24 * (n as u32);
    let vars = exprs + 16 * (e as u32);
    let looks = vars + 16 * (v as u32);
    let total = looks + 2 * (l as u32);
    let row = [
        1, n as u32, e as u32, v as u32, l as u32, 20, exprs, vars, looks, total,
    ];
    numbers(buf, 0, &row);
}

// The number of none: no parent, condition, variable or entry.
const NONE: u32 = 65535;

// A node record, its priority 0 and its seven conditions default.
pub(crate) fn node(buf: &mut [u8], at: usize, parent: Option<u32>, work: Work) {
    let (node_type, what, value) = match work {
        Work::List => (0, NONE, NONE),
        Work::Command(word) => (1, word, NONE),
        Work::Assignment(variable, entry) => (2, variable, entry),
    };
    let row = [
        parent.unwrap_or(NONE),
        node_type,
        0,
        NONE,
        NONE,
        NONE,
        NONE,
        NONE,
        NONE,
        NONE,
        what,
        value,
    ];
    numbers(buf, at, &row);
}

// Two bytes, two numbers, a spare number and 64 bits.
fn wide(buf: &mut [u8], at: usize, low: u8, high: u8, a: u32, b: u32, bits: u64) {
    let first = u32::from(u16::from_le_bytes([low, high]));
    let low_bits = (bits % (1 << 32)) as u32;
    let high_bits = (bits >> 32) as u32;
    let row = [
        first,
        a,
        b,
        0,
        low_bits,
        low_bits >> 16,
        high_bits,
        high_bits >> 16,
    ];
    numbers(buf, at, &row);
}

fn constant(buf: &mut [u8], at: usize, value: Value) {
    let known = u32::from(value.is_known());
    wide(buf, at, 0, value.kind().number(), 0, known, value.bits());
}

// An entry without a constant: its operator, its kind and two numbers.
fn operator(buf: &mut [u8], at: usize, op: u8, kind: Kind, a: u32, b: u32) {
    wide(buf, at, op, kind.number(), a, b, 0);
}

pub(crate) fn expr(buf: &mut [u8], at: usize, entry: Entry) {
    match entry {
        Entry::Constant(value) => constant(buf, at, value),
        Entry::Variable(kind, v) => operator(buf, at, 1, kind, v, 0),
        Entry::BoolLookup(l) => operator(buf, at, 2, Kind::Bool, l, 0),
        Entry::Not(a) => operator(buf, at, 6, Kind::Bool, a, 0),
        Entry::And(a, b) => operator(buf, at, 7, Kind::Bool, a, b),
        Entry::Less(a, b) => operator(buf, at, 10, Kind::Bool, a, b),
        Entry::Add(a, b) => operator(buf, at, 12, Kind::Int, a, b),
    }
}

pub(crate) fn variable(buf: &mut [u8], at: usize, owner: u32, initial: Value) {
    let known = u8::from(initial.is_known());
    let kind = initial.kind().number();
    wide(buf, at, kind, known, owner, 0, initial.bits());
}
