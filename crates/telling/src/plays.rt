// What the cases share: a plan started fresh and run, a plan checked, and the next turn.
use super::answers::Judged;
use plexil::{Card, Ran, Started, State};
use std::io;

// A state to hand to a fresh start. `marked` of refusals is another in each of its eight parts, so that a function of both would take all eight.
fn blank() -> State {
    State {
        status: [0; 256],
        outcome: [0; 256],
        failure: [0; 256],
        mark: [0; 256],
        vartags: [0; 128],
        varbits: [0; 128],
        looktags: [0; 64],
        lookbits: [0; 64],
    }
}

// "Each plan starts fresh". The phase is a number, since C lends the `Card` of plexil.
pub fn start(image: &[u8]) -> Started {
    let card = Card {
        serial: 0,
        phase: 0,
    };
    turns::fresh(image, blank(), card)
}

// A fresh plan, run from the list's first place.
pub fn play(image: &[u8], budget: u16, list: &mut [u32]) -> Ran {
    let started = start(image);
    turns::run(image, started.state, started.card, budget, list, 0)
}

// The verdict on an image. An error of writing is answered.
pub fn judge(rt: &impl Print, name: &str, image: &[u8]) -> io::Result<()> {
    print!(rt; "{name}{}", Judged(admit::check(image).verdict))
}

pub fn check(rt: &impl Print, name: &str, image: &[u8]) -> io::Result<()> {
    judge(rt, name, image)?;
    println!(rt)
}

// The next turn: an event, with this budget from the list's first place.
pub fn after(image: &[u8], r: &Ran, event: &[u8], budget: u16, list: &mut [u32]) -> Ran {
    turns::turn(image, r.state, r.card, event, budget, list, 0)
}
