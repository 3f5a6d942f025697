// Entries, one after another from the place `base` of the image on.
ghost use Rattle.std.specs.Prelude.{◌≡◌, ◌-◌};
ghost use Rattle.notation.specs.Mapping.{binary_code};
ghost use Rattle.build.specs.Operators.{Tells, Binds, KindOf, Ends, binary_of, first_of};
ghost use Rattle.build.specs.Steps.{Emits};

use super::rows::row;
use super::write::{BLANK, Entry, put_entry};

// "0 constant; 1 variable a; 2 lookup a; 6 NOT a"
pub const CONSTANT: u8 = 0;

pub const VARIABLE: u8 = 1;

pub const LOOKUP: u8 = 2;

pub const NOT: u8 = 6;

// One more entry, where there is room for it; how many there are.
pub fn emit(image: &mut [u8; 41108], base: usize, n: usize, e: Entry) -> usize
    ensures { Emits base n e.op e.kind e.a e.b e.word image.old result image.new }
{
    if n >= 2048 {
        return n;
    }
    if base > 6164 {
        return n;
    }
    put_entry(image, base + 16 * n, e);
    n + 1
}

// The last of n.
pub fn last(n: usize) -> usize
    ensures { result ≡ n - 1 }
{
    if n == 0 { 0 } else { n - 1 }
}

// "7 AND; 8 OR; 9 EQ; 10 LT; 11 LE; 12 ADD; 13 SUB; 14 MUL", by the number of what is said, from 80 on
const CODES: [u8; 11] = [8, 7, 9, 9, 10, 11, 10, 11, 12, 13, 14];

// how strongly each binds
const STRENGTHS: [u8; 11] = [1, 2, 4, 4, 4, 4, 4, 4, 5, 5, 6];

// The code of an operator.
fn operator(says: u8) -> u8
    ensures { Tells (λ o. binary_code (binary_of o)) says result }
{
    row(&CODES, 80, says)
}

// How strongly what is said binds; what ends a group or an expression does not.
pub fn strength(says: u8) -> u8
    ensures { Binds says result }
{
    row(&STRENGTHS, 80, says)
}

// "`a > b` is `b < a`": the first operand.
fn first(says: u8, a: usize, b: usize) -> usize
    ensures { Tells (λ o. first_of o a b) says result }
{
    if says == 86 {
        b
    } else if says == 87 {
        b
    } else {
        a
    }
}

// "12 to 14 keep that kind, 3 to 11 give Bool"
fn kind_kept(image: &[u8; 41108], base: usize, op: u8, a: usize) -> u8
    ensures { KindOf base op a image.now result }
{
    if op < 12 {
        0
    } else if a >= 2048 {
        0
    } else if base > 6164 {
        0
    } else {
        image[base + (16 * a + 1)]
    }
}

// An operator ends: its left operand is the entry a, its right one the last.
pub fn end_operator(image: &mut [u8; 41108], base: usize, n: usize, says: u8, a: usize) -> usize
    ensures { Ends base n says a image.old result image.new }
{
    let b = last(n);
    let op = operator(says);
    let kind = kind_kept(image, base, op, a);
    let e = Entry {
        op,
        kind,
        a: first(says, a, b),
        b: first(says, b, a),
        word: 0,
    };
    let m = emit(image, base, n, e);
    if says != 83 {
        return m;
    }
    emit(
        image,
        base,
        m,
        Entry {
            op: NOT,
            a: n,
            ..BLANK
        },
    )
}
