// The evaluation of an expression entry without recursion: the operators that wait for an operand stand in an array of twelve places, with their count (no heap, fixed memory).
ghost use Rattle.std.specs.Prelude.{◌≡◌, ◌<◌, ◌-◌};
ghost use Rattle.plexil.specs.Lent.{seen_lent};
ghost use Rattle.plexil.specs.Image.{exprs_at};
ghost use Rattle.plexil.specs.Expressions.{value_of};
ghost use Rattle.evaluate.specs.Leaves.{leaf_answer};
ghost use Rattle.evaluate.specs.Pending.{entered_of};

use super::binary::join;
use super::leaves::{cell_value, code_is, constant};
use plexil::{Seen, Worked};

// The answer of an entry without operands, whose record stands at `at`; any other number is no leaf.
#[tactic(auto, using(crate::proofs::Laws::no_leaf), unfolding(crate::specs::Leaves::leaf_answer, plexil::specs::Places::opened))]
pub fn leaf(image: &[u8], at: u32, op: u8, seen: &Seen) -> Worked
    requires { at < 4000000 }
    ensures { result ≡ leaf_answer image.now at op (seen_lent seen.now) }
{
    let a = image::le16(image, at + 2);
    let b = image::le16(image, at + 4);
    match op {
        0 => constant(b, image::byte_at(image, at + 1), image::le64(image, at + 8)),
        1 => cell_value(seen.vartags, seen.varbits, a),
        2 => cell_value(seen.looktags, seen.lookbits, a),
        3 => code_is(seen.status, a, b),
        4 => code_is(seen.outcome, a, b),
        5 => code_is(seen.failure, a, b),
        _ => Worked::Clash,
    }
}

// An operator that waits for an operand's value: NOT; one of two, by its number, with its second operand's entry; one with its first operand's value.
#[derive(Clone, Copy)]
pub enum Pending {
    Not,
    First(u8, u16),
    Second(u8, Worked),
}

// What an entry comes to: its value, or an operator that waits for the value of another entry. Neither is a refusal.
pub enum Entry {
    Value(Worked),
    Operand(Pending, u16),
}

// entered and answer of answers are two: no plainer as one, since answer has both operands' values in its table, this one answers before they are there.
// `base` is worked out once for all entries: no plainer in a struct with the image, where each clause would name the two by their fields.
// What entry e comes to, so deep in its expression; the expressions stand at `base`.
#[tactic(auto, using(crate::proofs::PendingLaws::entered_deep, crate::proofs::PendingLaws::entered_leaf, crate::proofs::PendingLaws::entered_none, crate::proofs::PendingLaws::entered_not, crate::proofs::PendingLaws::entered_binary))]
fn entered(image: &[u8], base: u32, seen: &Seen, e: u16, depth: usize) -> Entry
    requires { base ≡ exprs_at image.now }
    ensures { result ≡ entered_of image.now (seen_lent seen.now) (12 - depth) e }
{
    if depth >= 12 {
        return Entry::Value(Worked::Clash);
    }
    let at = base + 16 * (e as u32);
    let op = image::byte_at(image, at);
    if op < 6 {
        return Entry::Value(leaf(image, at, op, seen));
    }
    if op > 14 {
        return Entry::Value(Worked::Clash);
    }
    let first = image::le16(image, at + 2);
    if op == 6 {
        return Entry::Operand(Pending::Not, first);
    }
    Entry::Operand(Pending::First(op, image::le16(image, at + 4)), first)
}

// "an expression tree is at most 12 deep": as many operators can be pending. It goes down to an entry that has a value, then up with it, as far as an operator
// whose second operand is to come. These are two loops, since on the way down there is no value to carry, and no turn has to test which way it goes.
// No place is read before it is written, so what they start as is free: First, since Not is zeros alone and laid by a call of memset, on more stack.
pub fn value_of(image: &[u8], seen: &Seen, e: u16) -> Worked
    ensures { result ≡ value_of image.now (seen_lent seen.now) e }
{
    let base = image::exprs_at(image);
    let mut pending = [Pending::First(0, 0); 12];
    let mut n: usize = 0;
    let mut entry = e;
    'down: loop {
        let mut v = match entered(image, base, seen, entry, n) {
            Entry::Value(v) => v,
            Entry::Operand(operator, a) => {
                pending[n] = operator;
                n += 1;
                entry = a;
                continue;
            }
        };
        'up: loop {
            if n == 0 {
                return v;
            }
            match pending[n - 1] {
                Pending::Not => {
                    n -= 1;
                    v = values::not_of(v);
                }
                Pending::First(op, b) => {
                    pending[n - 1] = Pending::Second(op, v);
                    entry = b;
                    break;
                }
                Pending::Second(op, x) => {
                    n -= 1;
                    v = join(op, x, v);
                }
            }
        }
    }
}
