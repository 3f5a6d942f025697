// Rule 12's table: what the variables of each entry's tree ask of the node that reads them, from the entries before it.
// 0 nothing, 257 nobody, else one more than the node: fixed memory, since an enum would make the table of 2048 twice as big on the stack.
ghost use Rattle.std.specs.Prelude.{◌≡◌, [], ◌∷◌, ℕ, ◌<◌};
ghost use Rattle.plexil.specs.Lists.{every};
ghost use Rattle.plexil.specs.Image.{node_count, expr_count};
ghost use Rattle.admit.specs.Owners.{allows, Asks, Asked, Ordered, Owned};

use super::reach::is_above;

// Whether node i may read what asks o.
#[tactic(auto, unfolding(plexil::specs::Lists::opened, crate::specs::Owners::allows))]
pub(crate) fn allowed(image: &[u8], o: u16, i: u16) -> bool
    ensures { result ≡ allows image.now o i }
{
    if o == 0 {
        return true;
    }
    if o == 257 {
        return false;
    }
    is_above(image, i as u32 + 1, o - 1, i)
}

// What two operands ask together: the lower one's node, if it is below the other's.
// No plainer as a struct with Ordered in it: broken_reach alone would make one, and Reach, which has the fact already, would reach through it.
fn both(image: &[u8], a: u16, b: u16) -> u16
    requires ordered { Ordered image.now }
    requires asked { Asked image.now a }
    requires asked_2 { Asked image.now b }
    ensures asked_3 { Asked image.now result }
    ensures by_index { (i : ℕ) → i < node_count image.now → allows image.now result i ≡ every (allows image.now a i ∷ allows image.now b i ∷ []) }
{
    if a == 0 {
        return b;
    }
    if b == 0 {
        return a;
    }
    if a == 257 {
        return 257;
    }
    if b == 257 {
        return 257;
    }
    if allowed(image, a, b - 1) {
        return b;
    }
    if allowed(image, b, a - 1) {
        return a;
    }
    257
}

// The image and its table are two here, and no Reach: there the table is whole, here it is filled below e.
// What entry e asks, by its operator: 1 a variable, below 6 another leaf, 6 NOT.
pub(crate) fn asked<'a>(image: &'a [u8], owners: &'a [u16; 2048], e: u16) -> u16
    requires ordered { Ordered image.now }
    requires e_bound { e < expr_count image.now }
    requires owned { Owned image.now e owners.now }
    ensures asked { Asked image.now result }
    ensures asks { Asks image.now e result }
{
    let operator = image::operator(image, e);
    let a = image::operand_a(image, e);
    if operator == 1 {
        return image::owner(image, a) + 1;
    }
    if operator < 6 {
        return 0;
    }
    let first = owners[a as usize];
    if operator == 6 {
        return first;
    }
    let b = image::operand_b(image, e);
    let second = owners[b as usize];
    both(image, first, second)
}
