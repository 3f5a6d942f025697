// What each call is given to refuse: an image, and a state and a card to be kept.
use super::pass_over;
use plexil::{Card, State};
use telling::Left;

// A state that no plan here reaches, so that a change shows. Codes and phase are numbers, since C lends `State` and `Card` of plexil.
fn marked() -> State {
    State {
        status: [1; 256],
        outcome: [2; 256],
        failure: [3; 256],
        mark: [1; 256],
        vartags: [2; 128],
        varbits: [5; 128],
        looktags: [2; 64],
        lookbits: [6; 64],
    }
}

pub(crate) fn held() -> Left {
    Left {
        state: marked(),
        card: Card {
            serial: 7,
            phase: 1,
        },
    }
}

// Every call on one image.
pub(crate) fn image(rt: &impl Print, name: &[u8], image: &[u8]) {
    telling::show_judge(rt, name, image);
    telling::show_fresh(rt, image, &held());
    telling::show_run(rt, image, &held(), 2);
    telling::show_turn(rt, image, &held(), b"", 2);
    pass_over(println!(rt));
}
