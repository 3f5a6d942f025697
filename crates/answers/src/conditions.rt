// A node's condition and an assigned value, read from the table; normal answers for the default.
// condition of evaluate has value_of in the table's place: no plainer as one function, which needs a closure with its clause to share one comparison.
ghost use Rattle.std.specs.Prelude.{◌≡◌, true, false, ◌<◌};
ghost use Rattle.plexil.specs.declared.State.{State};
ghost use Rattle.plexil.specs.Values.{says};
ghost use Rattle.plexil.specs.Image.{node_count};
ghost use Rattle.plexil.specs.Places.{seen};
ghost use Rattle.plexil.specs.Records.{is_writer};
ghost use Rattle.plexil.specs.Micro.{written};
ghost use Rattle.evaluate.specs.Condition.{condition_or};
ghost use Rattle.answers.specs.Table.{IsTable};

use evaluate::cell_value;
use plexil::{Cell, Condition, Worked};

// "expression, or 65535 for default"
pub fn condition(
    image: &[u8],
    tags: &[u8],
    bits: &[u64],
    i: u16,
    c: Condition,
    normal: bool,
) -> Worked
    ensures { (s : State) → IsTable image.now s tags.now bits.now → i < node_count image.now → result ≡ condition_or image.now (seen s) i c normal }
{
    let e = image::condition_field(image, i, c);
    if e == 65535 {
        return Worked::Bool(normal);
    }
    cell_value(tags, bits, e)
}

// holds and fails are values::says with True and with False: the one function is that.
pub fn holds(image: &[u8], tags: &[u8], bits: &[u64], i: u16, c: Condition, normal: bool) -> bool
    ensures { (s : State) → IsTable image.now s tags.now bits.now → i < node_count image.now → result ≡ says true (condition_or image.now (seen s) i c normal) }
{
    values::says(true, condition(image, tags, bits, i, c, normal))
}

pub fn fails(image: &[u8], tags: &[u8], bits: &[u64], i: u16, c: Condition, normal: bool) -> bool
    ensures { (s : State) → IsTable image.now s tags.now bits.now → i < node_count image.now → result ≡ says false (condition_or image.now (seen s) i c normal) }
{
    values::says(false, condition(image, tags, bits, i, c, normal))
}

// What a writer writes.
pub fn written(image: &[u8], tags: &[u8], bits: &[u64], i: u16) -> Cell
    ensures { (s : State) → IsTable image.now s tags.now bits.now → i < node_count image.now → is_writer image.now i ≡ true → result ≡ written image.now s i }
{
    values::encode(cell_value(tags, bits, image::value_field(image, i)))
}
