// Each call on a state and a card: its answer, and whether state, card and list are kept. An error of writing is answered, and nothing is written after it.
// A run and a turn stay two functions: they share `told`, and one of both would take an event that a run has not.
use super::answers::{Ended, Judged};
use super::given::Left;
use super::words::kept;
use plexil::Ran;
use std::io;

pub fn fresh(rt: &impl Print, image: &[u8], held: &Left) -> io::Result<()> {
    let r = turns::fresh(image, held.state, held.card);
    print!(rt;
        ", fresh{}{}",
        Judged(r.verdict),
        kept(*held == Left::from(&r))
    )
}

// What a run or a turn answered, and whether it left this state and card, and the list as it was.
fn told(rt: &impl Print, r: &Ran, list: &[u32; 4], left: &Left) -> io::Result<()> {
    print!(rt;
        "{} next {}{}{}",
        Ended(r),
        r.next,
        kept(*left == Left::from(r)),
        kept(*list == [9; 4])
    )
}

// A run with budget 100 over a list of four places, which should leave this state and card.
pub fn run_to(
    rt: &impl Print,
    image: &[u8],
    held: &Left,
    start: usize,
    left: &Left,
) -> io::Result<()> {
    let mut list = [9; 4];
    let r = turns::run(image, held.state, held.card, 100, &mut list, start);
    print!(rt; ", run")?;
    told(rt, &r, &list, left)
}

pub fn run(rt: &impl Print, image: &[u8], held: &Left, start: usize) -> io::Result<()> {
    run_to(rt, image, held, start, held)
}

// A turn with this event, else as above.
pub fn turn_to(
    rt: &impl Print,
    image: &[u8],
    held: &Left,
    event: &[u8],
    start: usize,
    left: &Left,
) -> io::Result<()> {
    let mut list = [9; 4];
    let r = turns::turn(image, held.state, held.card, event, 100, &mut list, start);
    print!(rt; ", turn")?;
    told(rt, &r, &list, left)
}

pub fn turn(
    rt: &impl Print,
    image: &[u8],
    held: &Left,
    event: &[u8],
    start: usize,
) -> io::Result<()> {
    turn_to(rt, image, held, event, start, held)
}
