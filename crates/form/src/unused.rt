// "unused places hold 0 or Unknown"
ghost use Rattle.std.specs.Prelude.{◌≡◌, drop, [], ◌∷◌};
ghost use Rattle.plexil.specs.Lists.{all_in, every};
ghost use Rattle.plexil.specs.Form.{zero_from, unused_empty};

use plexil::State;

// Each place from n on holds zero.
fn zero_from<T: Copy + PartialEq>(places: &[T], n: u16, zero: T) -> bool
    ensures { result ≡ all_in (λ x. T.eq x zero) (drop n places.now) }
{
    places.iter().skip(n as usize).all(|x| *x == zero)
}

fn nodes_empty(n: u16, state: &State) -> bool
    ensures { result ≡ every (zero_from n state.now.status ∷ zero_from n state.now.outcome ∷ zero_from n state.now.failure ∷ zero_from n state.now.mark ∷ []) }
{
    zero_from(&state.status, n, 0)
        && zero_from(&state.outcome, n, 0)
        && zero_from(&state.failure, n, 0)
        && zero_from(&state.mark, n, 0)
}

// The cells of variables or of lookups.
fn cells_empty(n: u16, tags: &[u8], bits: &[u64]) -> bool
    ensures { result ≡ every (zero_from n tags.now ∷ zero_from n bits.now ∷ []) }
{
    zero_from(tags, n, 0) && zero_from(bits, n, 0)
}

pub(crate) fn unused_empty(image: &[u8], state: &State) -> bool
    ensures { result ≡ unused_empty image.now state.now }
{
    nodes_empty(image::node_count(image), state)
        && cells_empty(image::var_count(image), &state.vartags, &state.varbits)
        && cells_empty(image::look_count(image), &state.looktags, &state.lookbits)
}
