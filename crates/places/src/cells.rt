// Cells: a known value of a kind, and a variable's initial value.
ghost use Rattle.std.specs.Prelude.{◌≡◌};
ghost use Rattle.plexil.specs.Places.{known_cell, initial};

use plexil::Cell;

// A kind past 2 never passes the check.
pub fn known_cell(kind: u8, bits: u64) -> Cell
    ensures { result ≡ known_cell kind bits }
{
    if kind < 3 {
        Cell {
            tag: kind + 1,
            bits,
        }
    } else {
        Cell { tag: 0, bits: 0 }
    }
}

// "initial value 64 (as a constant; 0 if not known)"
pub fn initial(image: &[u8], v: u16) -> Cell
    ensures { result ≡ initial image.now v }
{
    if image::var_known(image, v) == 1 {
        return known_cell(image::var_kind(image, v), image::initial_bits(image, v));
    }
    Cell { tag: 0, bits: 0 }
}
