// The unmarked small plans: the smallest image, the limits of nodes and depth, a budget of 0.
use super::pass_over;
use telling::{Ended, show_check};

// "44 bytes hold the smallest plan; 19 bytes are Short"
fn bytes(rt: &impl Print) {
    show_check(rt, b"44 bytes", &drawings::childless());
    show_check(rt, b"19 bytes", &[0; 19]);
}

// "256 nodes pass, 257 are Count"
fn nodes(rt: &impl Print) {
    show_check(rt, b"256 nodes", &drawings::nodes_256());
    show_check(rt, b"257 nodes", &drawings::nodes_257());
}

// "Depth 12 passes, 13 is Deep"
fn depth(rt: &impl Print) {
    show_check(rt, b"depth 12", &drawings::depth_12());
    show_check(rt, b"depth 13", &drawings::depth_13());
}

// "Budget 0 on a fresh plan K4: Spent, 0"
fn budget_0(rt: &impl Print) {
    let mut list = [0; 4];
    let r = telling::play(&drawings::childless(), 0, &mut list);
    pass_over(println!(rt; "budget 0{}", Ended(&r)));
}

pub(crate) fn all(rt: &impl Print) {
    bytes(rt);
    nodes(rt);
    depth(rt);
    budget_0(rt);
}
