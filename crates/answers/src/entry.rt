// What one entry answers, where a table tells its operands' answers.
ghost use Rattle.std.specs.Prelude.{◌≡◌, ◌<◌};
ghost use Rattle.plexil.specs.Image.{exprs_at};
ghost use Rattle.plexil.specs.Lent.{seen_lent};
ghost use Rattle.plexil.specs.Expressions.{operator_at, answer_of};
ghost use Rattle.answers.specs.Table.{told};

use evaluate::cell_value;
use plexil::{Seen, Worked};

// Entry e, whose section stands at base.
pub fn answer(image: &[u8], base: u32, e: u16, seen: &Seen, tags: &[u8], bits: &[u64]) -> Worked
    requires { (base ≡ exprs_at image.now) × (base < 2000000) }
    ensures { result ≡ answer_of (operator_at image.now e) image.now (seen_lent seen.now) e (told tags.now bits.now) }
{
    let at = base + 16 * (e as u32);
    let op = image::byte_at(image, at);
    if op < 6 {
        return evaluate::leaf(image, at, op, seen);
    }
    let x = cell_value(tags, bits, image::le16(image, at + 2));
    if op == 6 {
        return values::not_of(x);
    }
    let y = cell_value(tags, bits, image::le16(image, at + 4));
    evaluate::join(op, x, y)
}
