// The table, filled in entry order. No plainer as one with refresh: here no cell stands yet, and there are no flags that say what to keep.
ghost use Rattle.std.specs.Prelude.{◌≡◌, length};
ghost use Rattle.plexil.specs.declared.State.{State};
ghost use Rattle.plexil.specs.Places.{seen};
ghost use Rattle.plexil.specs.Lent.{seen_lent};
ghost use Rattle.plexil.specs.Promises.{IsAdmitted, IsKept};
ghost use Rattle.answers.specs.Table.{IsTable};

use super::entry::answer;
use plexil::Seen;

pub fn fill(image: &[u8], lent: &Seen, tags: &mut [u8; 2048], bits: &mut [u64; 2048])
    requires { IsAdmitted image.now × (length tags.old ≡ 2048) × (length bits.old ≡ 2048) }
    ensures { (s : State) → seen s ≡ seen_lent lent.now → IsKept image.now s
        → IsTable image.now s tags.new bits.new }
{
    let base = image::exprs_at(image);
    for e in 0..image::expr_count(image) {
        let c = values::encode(answer(image, base, e, lent, tags, bits));
        let k = e as usize;
        tags[k] = c.tag;
        bits[k] = c.bits;
    }
}
