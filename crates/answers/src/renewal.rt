// The table of one state made the table of another: what is touched is worked out anew.
ghost use Rattle.std.specs.Prelude.{◌≡◌, ◌<◌, ◌≤◌, length};
ghost use Rattle.plexil.specs.declared.State.{State};
ghost use Rattle.plexil.specs.Image.{exprs_at, expr_count};
ghost use Rattle.plexil.specs.Places.{seen};
ghost use Rattle.plexil.specs.Lent.{seen_lent};
ghost use Rattle.plexil.specs.Expressions.{value_of};
ghost use Rattle.plexil.specs.Promises.{IsAdmitted, IsKept};
ghost use Rattle.answers.specs.Table.{answer, IsTable};
ghost use Rattle.answers.specs.Changes.{Covers, Unchanged, Outside, Upto};

use super::entry::answer;
use super::flags::is_touched;
use plexil::{Cell, Seen};

// An entry's cell, and whether it differs from the one before. No plainer as an Option: there is a cell in both cases, and its flag is kept as a byte.
#[derive(Clone, Copy)]
pub struct Renewed {
    pub cell: Cell,
    pub changed: u8,
}

fn differs(old: Cell, new: Cell) -> u8
    ensures { result ≡ 0 → (old.tag ≡ new.tag) × (old.bits ≡ new.bits) }
{
    (old != new) as u8
}

// Entry e, whose section stands at base and whose cell was old; the table is that of t below e, and that of s from e on.
fn entry_anew(
    image: &[u8],
    base: u32,
    e: u16,
    lent: &Seen,
    altered: &[u8],
    tags: &[u8],
    bits: &[u64],
    changed: &[u8],
    old: Cell,
) -> Renewed
    requires { IsAdmitted image.now × (base ≡ exprs_at image.now) × (base < 2000000) × (e < expr_count image.now) }
    ensures { (s t : State) → IsKept image.now s → IsKept image.now t
        → seen t ≡ seen_lent lent.now
        → Covers (seen s) (seen t) altered.now → Upto image.now (seen s) (seen t) e tags.now bits.now
        → Unchanged image.now (seen s) (seen t) changed.now e → old ≡ answer image.now (seen s) e
        → (result.cell ≡ answer image.now (seen t) e) × (result.changed ≡ 0 → value_of image.now (seen s) e ≡ value_of image.now (seen t) e) }
{
    if is_touched(image, base, e, altered, changed) {
        let c = values::encode(answer(image, base, e, lent, tags, bits));
        let d = differs(old, c);
        return Renewed {
            cell: c,
            changed: d,
        };
    }
    Renewed {
        cell: old,
        changed: 0,
    }
}

// The entries from lo on and below hi, outside of which nothing changed.
pub fn refresh(
    image: &[u8],
    lent: &Seen,
    altered: &[u8],
    lo: u16,
    hi: u16,
    tags: &mut [u8; 2048],
    bits: &mut [u64; 2048],
    changed: &mut [u8; 2048],
)
    requires { IsAdmitted image.now × (lo ≤ expr_count image.now) × (hi ≤ expr_count image.now) × (length tags.old ≡ 2048) × (length bits.old ≡ 2048) × (length changed.old ≡ 2048) }
    ensures { (s t : State) → IsTable image.now s tags.old bits.old → IsKept image.now t
        → seen t ≡ seen_lent lent.now
        → Covers (seen s) (seen t) altered.now → Outside image.now (seen s) (seen t) lo hi
        → IsTable image.now t tags.new bits.new × Unchanged image.now (seen s) (seen t) changed.new (expr_count image.now) }
{
    let base = image::exprs_at(image);
    for e in lo..hi {
        let k = e as usize;
        let old = Cell {
            tag: tags[k],
            bits: bits[k],
        };
        let r = entry_anew(image, base, e, lent, altered, tags, bits, changed, old);
        tags[k] = r.cell.tag;
        bits[k] = r.cell.bits;
        changed[k] = r.changed;
    }
}
