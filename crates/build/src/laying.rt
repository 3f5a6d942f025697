// Records of nodes and variables into the image, one after another.
ghost use Rattle.std.specs.Prelude.{◌≡◌, length};
ghost use Rattle.build.specs.Telling.{LaysNode, LaysVariable, LaysInitial};

use super::write::{Record, little, put_node, put_variable};

// One more node, where there is room for it; how many there are.
pub fn add_node<'a>(image: &mut [u8; 41108], n: usize, r: Record<'a>) -> usize
    requires { length r.given.now ≡ 7 }
    ensures { LaysNode n r.entry.parent r.entry.form r.entry.priority r.entry.given.now r.entry.what r.entry.value image.old result image.new }
{
    if n >= 256 {
        return n;
    }
    put_node(image, 20 + 24 * n, r);
    n + 1
}

// One more variable, not known, where there is room for it; how many there are.
pub fn add_variable(image: &mut [u8; 41108], base: usize, n: usize, kind: u8, owner: usize) -> usize
    ensures { LaysVariable base n kind owner image.old result image.new }
{
    if n >= 128 {
        return n;
    }
    if base > 38932 {
        return n;
    }
    put_variable(image, base + 16 * n, kind, 0, owner, 0);
    n + 1
}

// The last of n variables is known, and has this value.
pub fn set_initial(image: &mut [u8; 41108], base: usize, n: usize, w: u64)
    ensures { LaysInitial base n w image.old image.new }
{
    if n == 0 {
        return;
    }
    if n > 128 {
        return;
    }
    if base > 38932 {
        return;
    }
    let at = base + 16 * (n - 1);
    image[at + 1] = 1;
    little(image, at + 8, 8, w);
}
