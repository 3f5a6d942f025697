// What a leaf answers. A place past an array's end holds 0.
// The known flag b, kinds, codes and tags are numbers: what may not change, the definition leaf_answer reads them from a record of any bytes.
// A state's codes, tags and bits are lent by C (C interface), tags and bits in two arrays.
ghost use Rattle.std.specs.Prelude.{◌≡◌, eqb, get_or};
ghost use Rattle.plexil.specs.Lists.{when◌then◌else◌};
ghost use Rattle.plexil.specs.Values.{known, decode};
ghost use Rattle.plexil.specs.declared.Worked.TheVariants as w;

use plexil::{Worked, get_or};

// "b = 1 known, b = 0 Unknown with constant 0"
pub fn constant(b: u16, kind: u8, bits: u64) -> Worked
    ensures { result ≡ (when eqb b 1 then known kind bits else w.Unknown) }
{
    if b == 1 {
        values::known(kind, bits)
    } else {
        Worked::Unknown
    }
}

// "In 3 to 5, b is a code listed below; they are never Unknown"
pub fn code_is(codes: &[u8], k: u16, b: u16) -> Worked
    ensures { result ≡ w.Bool (eqb (get_or codes.now k 0) b) }
{
    Worked::Bool(get_or(codes, k, 0) as u16 == b)
}

// The value of a variable's or a lookup's cell.
pub fn cell_value(tags: &[u8], bits: &[u64], k: u16) -> Worked
    ensures { result ≡ decode (get_or tags.now k 0) (get_or bits.now k 0) }
{
    values::decode(get_or(tags, k, 0), get_or(bits, k, 0))
}
