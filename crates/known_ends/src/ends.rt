// K1 to K10, each fresh with budget 100.
use super::pass_over;
use drawings::{LOOKUP, RETURN};
use plexil::Ran;
use telling::{Ended, after, first, root, second, x, y};

// A plan without commands, to its end.
fn begin(image: &[u8]) -> Ran {
    let mut list = [0; 4];
    telling::play(image, 100, &mut list)
}

fn k1(rt: &impl Print) {
    let r = begin(&drawings::swap());
    pass_over(println!(rt; "K1{} x={} y={}", Ended(&r), x(&r.state), y(&r.state)));
}

// The priorities a and b.
fn contest(rt: &impl Print, name: &str, a: u32, b: u32) {
    let r = begin(&drawings::contest(a, b));
    let s = &r.state;
    pass_over(println!(rt;
        "{name}{} x={}, first{}, second{}",
        Ended(&r),
        x(s),
        first(s),
        second(s)
    ));
}

// A plan without commands, and its root then.
fn root_at_end(rt: &impl Print, name: &str, image: &[u8]) {
    let r = begin(image);
    pass_over(println!(rt; "{name}{}{}", Ended(&r), root(&r.state)));
}

// A plan that assigns x, and x then.
fn x_at_end(rt: &impl Print, name: &str, image: &[u8]) {
    let r = begin(image);
    pass_over(println!(rt; "{name}{} x={}", Ended(&r), x(&r.state)));
}

// A plan that issues one word.
fn issue(rt: &impl Print, name: &str, image: &[u8]) -> Ran {
    let mut list = [9; 4];
    let r = telling::play(image, 100, &mut list);
    pass_over(print!(rt; "{name}{} word {}", Ended(&r), list[0]));
    r
}

// The return of a node, and the root then. With `is_false` it shares `after`, and tells another part of what is left.
fn returned(rt: &impl Print, image: &[u8], r: &Ran, serial: u32, node: u32) {
    let mut list = [9; 4];
    let s = after(
        image,
        r,
        &drawings::single(serial, RETURN, node),
        100,
        &mut list,
    );
    pass_over(println!(rt; "{}{}", Ended(&s), root(&s.state)));
}

fn k5(rt: &impl Print) {
    let image = drawings::lone_command();
    let r = issue(rt, "K5", &image);
    returned(rt, &image, &r, 0, 0);
}

fn k7(rt: &impl Print) {
    let r = begin(&drawings::counting(1));
    pass_over(println!(rt; "K7{}", Ended(&r)));
}

// "Lookup False", and the word then.
fn is_false(rt: &impl Print, image: &[u8], r: &Ran) -> Ran {
    let mut list = [9; 4];
    let s = after(image, r, &drawings::single(0, LOOKUP, 0), 100, &mut list);
    pass_over(print!(rt; "{} word {}", Ended(&s), list[0]));
    s
}

fn k9(rt: &impl Print) {
    let image = drawings::guarded();
    let r = issue(rt, "K9", &image);
    let s = is_false(rt, &image, &r);
    returned(rt, &image, &s, 1, 1);
}

pub(crate) fn all(rt: &impl Print) {
    k1(rt);
    contest(rt, "K2", 5, 3);
    contest(rt, "K3", 5, 5);
    root_at_end(rt, "K4", &drawings::childless());
    k5(rt);
    x_at_end(rt, "K6", &drawings::counting(0));
    k7(rt);
    root_at_end(rt, "K8", &drawings::pre_false());
    k9(rt);
    x_at_end(rt, "K10 9223372036854775807 + 1", &drawings::over());
    x_at_end(rt, "K10 False AND Unknown", &drawings::false_and_unknown());
}
