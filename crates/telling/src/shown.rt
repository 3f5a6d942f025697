// The calls of `left` and the verdicts of `plays`, for a program that goes on where it cannot write: an error of writing is passed over, and what comes after it is written.
// They do not call those: no answer is carried up that nobody hears, and a call goes on past a piece that failed.
use super::answers::{Ended, Judged};
use super::given::Left;
use super::words::kept;
use super::written::pass_over;
use plexil::Ran;

// A name is any bytes, so it is no part of the format.
pub fn show_judge(rt: &impl Print, name: &[u8], image: &[u8]) {
    let c = admit::check(image);
    pass_over(rt.write_all(name));
    pass_over(print!(rt; "{}", Judged(c.verdict)));
}

pub fn show_check(rt: &impl Print, name: &[u8], image: &[u8]) {
    show_judge(rt, name, image);
    pass_over(println!(rt));
}

pub fn show_fresh(rt: &impl Print, image: &[u8], held: &Left) {
    let r = turns::fresh(image, held.state, held.card);
    pass_over(print!(rt;
        ", fresh{}{}",
        Judged(r.verdict),
        kept(*held == Left::from(&r))
    ));
}

// What a run or a turn answered, and whether it left this state and card, and the list as it was.
fn shown(rt: &impl Print, r: &Ran, list: &[u32; 4], left: &Left) {
    pass_over(print!(rt;
        "{} next {}{}{}",
        Ended(r),
        r.next,
        kept(*left == Left::from(r)),
        kept(*list == [9; 4])
    ));
}

pub fn show_run_to(rt: &impl Print, image: &[u8], held: &Left, start: usize, left: &Left) {
    let mut list = [9; 4];
    let r = turns::run(image, held.state, held.card, 100, &mut list, start);
    pass_over(print!(rt; ", run"));
    shown(rt, &r, &list, left);
}

pub fn show_run(rt: &impl Print, image: &[u8], held: &Left, start: usize) {
    show_run_to(rt, image, held, start, held);
}

pub fn show_turn_to(
    rt: &impl Print,
    image: &[u8],
    held: &Left,
    event: &[u8],
    start: usize,
    left: &Left,
) {
    let mut list = [9; 4];
    let r = turns::turn(image, held.state, held.card, event, 100, &mut list, start);
    pass_over(print!(rt; ", turn"));
    shown(rt, &r, &list, left);
}

pub fn show_turn(rt: &impl Print, image: &[u8], held: &Left, event: &[u8], start: usize) {
    show_turn_to(rt, image, held, event, start, held);
}
