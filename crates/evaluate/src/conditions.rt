// A node's condition in a state, where normal answers for the default.
// condition of answers has a table in value_of's place: no plainer as one function, which needs a closure with its clause to share one comparison.
ghost use Rattle.std.specs.Prelude.{◌≡◌, true, false};
ghost use Rattle.plexil.specs.Values.{says};
ghost use Rattle.plexil.specs.Lent.{seen_lent};
ghost use Rattle.evaluate.specs.Condition.{condition_or};

use super::entries::value_of;
use plexil::{Condition, Seen, Worked};

// "expression, or 65535 for default"
#[tactic(auto, unfolding(plexil::specs::Lists::opened, plexil::specs::Image::default, crate::specs::Condition::condition_or))]
pub fn condition(image: &[u8], seen: &Seen, i: u16, c: Condition, normal: bool) -> Worked
    ensures { result ≡ condition_or image.now (seen_lent seen.now) i c normal }
{
    let e = image::condition_field(image, i, c);
    if e == 65535 {
        return Worked::Bool(normal);
    }
    value_of(image, seen, e)
}

// holds and fails are values::says with True and with False: the one function is that.
pub fn holds(image: &[u8], seen: &Seen, i: u16, c: Condition, normal: bool) -> bool
    ensures { result ≡ says true (condition_or image.now (seen_lent seen.now) i c normal) }
{
    values::says(true, condition(image, seen, i, c, normal))
}

pub fn fails(image: &[u8], seen: &Seen, i: u16, c: Condition, normal: bool) -> bool
    ensures { result ≡ says false (condition_or image.now (seen_lent seen.now) i c normal) }
{
    values::says(false, condition(image, seen, i, c, normal))
}
