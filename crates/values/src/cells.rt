// How a value is kept: a tag and 64 bits.
// Kinds and tags stay numbers: `good_bits`, `known` and `decode` and their definitions take any byte that a plan or a state has.
// `decode` and `encode` are no `From`: an impl for `Worked` and `Cell` belongs to plexil, and a state keeps tags and bits apart.
ghost use Rattle.std.specs.Prelude.{◌≡◌};
ghost use Rattle.plexil.specs.Values as Values;

use arithmetic::{is_finite, real_in};
use plexil::{Cell, Worked};
use std::num::f64_from_bits_with_nan;

// "Bool 0 or 1, Int two's complement, finite Real's bits"
pub fn good_bits(kind: u8, bits: u64) -> bool
    ensures { result ≡ Values.good_bits kind bits }
{
    match kind {
        0 => bits <= 1,
        1 => true,
        2 => is_finite(f64_from_bits_with_nan(bits)),
        _ => false,
    }
}

// The value of a kind's bits.
pub fn known(kind: u8, bits: u64) -> Worked
    ensures { result ≡ Values.known kind bits }
{
    match kind {
        0 => Worked::Bool(bits == 1),
        1 => Worked::Int(bits.cast_signed()),
        2 => real_in(f64_from_bits_with_nan(bits)),
        _ => Worked::Unknown,
    }
}

// The value that a cell keeps: tag 0 is Unknown, and any other is one more than the kind.
pub fn decode(tag: u8, bits: u64) -> Worked
    ensures { result ≡ Values.decode tag bits }
{
    if tag == 0 {
        Worked::Unknown
    } else {
        known(tag - 1, bits)
    }
}

// The cell that keeps a value.
pub fn encode(v: Worked) -> Cell
    ensures { result ≡ Values.encode v }
{
    match v {
        Worked::Bool(b) => Cell {
            tag: 1,
            bits: u64::from(b),
        },
        Worked::Int(x) => Cell {
            tag: 2,
            bits: x.cast_unsigned(),
        },
        Worked::Real(x) if is_finite(x) => Cell {
            tag: 3,
            bits: x.to_bits(),
        },
        _ => Cell { tag: 0, bits: 0 },
    }
}
