// Plans at the limits of nodes and depth, and one beyond.
use super::records::{Entry, Value, Work};
use super::write;

// A list with n - 1 childless lists below it.
fn many<const BYTES: usize>(n: u16) -> [u8; BYTES] {
    let mut image = [0u8; BYTES];
    write::header(&mut image, n, 0, 0, 0);
    write::node(&mut image, 20, None, Work::List);
    for i in 1..n {
        write::node(&mut image, 20 + 24 * usize::from(i), Some(0), Work::List);
    }
    image
}

// "256 nodes pass, 257 are Count"
pub fn nodes_256() -> [u8; 6164] {
    many(256)
}

pub fn nodes_257() -> [u8; 6188] {
    many(257)
}

// A list whose Skip is False under n - 1 times NOT, n deep.
fn deep<const BYTES: usize>(n: u16) -> [u8; BYTES] {
    let mut image = [0u8; BYTES];
    write::header(&mut image, 1, n, 0, 0);
    write::node(&mut image, 20, None, Work::List);
    write::expr(&mut image, 44, Entry::Constant(Value::Bool(false)));
    for e in 1..n {
        write::expr(
            &mut image,
            44 + 16 * usize::from(e),
            Entry::Not(u32::from(e - 1)),
        );
        write::put16(&mut image, 26, u32::from(e));
    }
    image
}

// "Depth 12 passes, 13 is Deep"
pub fn depth_12() -> [u8; 236] {
    deep(12)
}

pub fn depth_13() -> [u8; 252] {
    deep(13)
}
