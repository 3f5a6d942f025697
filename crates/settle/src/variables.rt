// The variables: a write that is settled enters, else the initial value where the owner entered Waiting, else the old cell stays.
ghost use Rattle.std.specs.Prelude.{◌≡◌, ◌∷◌, [], eqb, ltb, get_or};
ghost use Rattle.plexil.specs.declared.State.{State};
ghost use Rattle.plexil.specs.declared.Status.TheVariants as status;
ghost use Rattle.plexil.specs.Lists.{every};
ghost use Rattle.plexil.specs.Places.{same, var_cell};
ghost use Rattle.plexil.specs.Order.{Carry, entered_waiting, settled_var, settle};
ghost use Rattle.plexil.specs.Promises.{IsAdmitted};

use places::status_at;
use plexil::{Cell, Status, get_or};

// "A tie for greatest: none writes": a writer was met, and it is not tied.
fn written(top: &[u32], tied: &[u8], v: u16) -> bool
    ensures { result ≡ every (ltb 0 (get_or top.now v 0) ∷ eqb (get_or tied.now v 0) 0 ∷ []) }
{
    get_or(top, v, 0) > 0 && get_or(tied, v, 0) == 0
}

fn is_waiting(a: Status) -> bool
    ensures { result ≡ same a status.Waiting }
{
    a == Status::Waiting
}

// Node i was not Waiting, and is now.
fn entered_waiting(st: &[u8], st2: &[u8], i: u16) -> bool
    ensures { (s : State) (c : Carry) → s.status ≡ st.now → c.status ≡ st2.now → result ≡ entered_waiting s c i }
{
    !is_waiting(status_at(st, i)) && is_waiting(Status::from(get_or(st2, i, 0)))
}

// "A node's variables return to their initial values when it enters Waiting"
fn settled_var(
    image: &[u8],
    st: &[u8],
    st2: &[u8],
    top: &[u32],
    tags: &[u8],
    bits: &[u64],
    tied: &[u8],
    old: Cell,
    v: u16,
) -> Cell
    ensures { (s : State) (c : Carry) → s.status ≡ st.now → c.status ≡ st2.now → c.top ≡ top.now → c.tags ≡ tags.now → c.bits ≡ bits.now → c.tied ≡ tied.now → var_cell s v ≡ old → result ≡ settled_var image.now s c v }
{
    if written(top, tied, v) {
        return Cell {
            tag: get_or(tags, v, 0),
            bits: get_or(bits, v, 0),
        };
    }
    if entered_waiting(st, st2, image::owner(image, v)) {
        return places::initial(image, v);
    }
    old
}

// A cell is read before it is stored: the others do not look at it.
pub fn settle_vars(
    image: &[u8],
    st: &[u8],
    st2: &[u8],
    top: &[u32],
    tags: &[u8],
    bits: &[u64],
    tied: &[u8],
    vt: &mut [u8; 128],
    vb: &mut [u64; 128],
)
    requires { IsAdmitted image.now }
    ensures { (s : State) (c : Carry) → s.status ≡ st.now → c.status ≡ st2.now → c.top ≡ top.now → c.tags ≡ tags.now → c.bits ≡ bits.now → c.tied ≡ tied.now → s.vartags ≡ vt.old → s.varbits ≡ vb.old → (vt.new ≡ (settle image.now s c).vartags) × (vb.new ≡ (settle image.now s c).varbits) }
{
    for v in 0..image::var_count(image) {
        let k = v as usize;
        let old = Cell {
            tag: vt[k],
            bits: vb[k],
        };
        let new = settled_var(image, st, st2, top, tags, bits, tied, old, v);
        vt[k] = new.tag;
        vb[k] = new.bits;
    }
}
