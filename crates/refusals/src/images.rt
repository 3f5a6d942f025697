// A vector for each of the refusals 1 to 12: one change of the counting plan, which stands first unchanged.
use super::refuse;

// The byte b at this place.
fn changed(rt: &impl Print, name: &[u8], at: usize, b: u8) {
    let mut image = drawings::counting_looking(0);
    drawings::put(&mut image, at, b);
    refuse::image(rt, name, &image);
}

// The child owns x, and the list's Inv is x < 3.
fn reach(rt: &impl Print) {
    let mut image = drawings::counting_looking(1);
    drawings::put16(&mut image, 32, 4);
    refuse::image(rt, b"Reach", &image);
}

fn header(rt: &impl Print) {
    changed(rt, b"Edition", 0, 2);
    changed(rt, b"Count", 2, 0);
    changed(rt, b"Layout", 18, 167);
}

fn records(rt: &impl Print) {
    changed(rt, b"Tree", 44, 1);
    changed(rt, b"Node", 47, 1);
    changed(rt, b"Variable", 148, 3);
    changed(rt, b"Lookup", 164, 3);
    changed(rt, b"Expression", 84, 15);
}

pub(crate) fn all(rt: &impl Print) {
    telling::show_check(rt, b"unchanged", &drawings::counting_looking(0));
    refuse::image(rt, b"Short", &[1; 19]);
    header(rt);
    records(rt);
    refuse::image(rt, b"Deep", &drawings::depth_13());
    changed(rt, b"Kind", 62, 0);
    reach(rt);
}
