// The kept values: Unknown, or a known value of the kind that the image gives; "known Reals finite".
ghost use Rattle.std.specs.Prelude.{◌≡◌, get_or};
ghost use Rattle.plexil.specs.Values.{cell};
ghost use Rattle.plexil.specs.Form.{good_cell, has_kind};

use plexil::get_or;

fn good_cell(kind: u8, tag: u8, bits: u64) -> bool
    ensures { result ≡ good_cell kind tag bits }
{
    if tag == 0 {
        return bits == 0;
    }
    tag - 1 == kind && values::good_bits(kind, bits)
}

// Cell i, of variables or of lookups. The C interface has a state's tags and bits in two arrays.
pub(crate) fn has_kind(kind: u8, tags: &[u8], bits: &[u64], i: u16) -> bool
    ensures { result ≡ has_kind kind (cell (get_or tags.now i 0) (get_or bits.now i 0)) }
{
    good_cell(kind, get_or(tags, i, 0), get_or(bits, i, 0))
}
