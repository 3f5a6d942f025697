// A vector for each of the refusals 20 to 25 and 30 to 32.
use super::pass_over;
use super::refuse::held;
use drawings::{LOOKUP, RETURN};
use plexil::Ran;
use telling::{Left, after, play, start};

// A turn of the lone command.
fn refuse(rt: &impl Print, name: &str, held: &Left, event: &[u8]) {
    pass_over(print!(rt; "{name}"));
    telling::show_turn(rt, &drawings::lone_command(), held, event, 2);
    pass_over(println!(rt));
}

fn busy(rt: &impl Print) {
    let s = start(&drawings::lone_command());
    refuse(rt, "Busy", &Left::from(&s), &drawings::single(0, RETURN, 0));
}

// A plan whose command has issued its word.
fn issued(image: &[u8]) -> Ran {
    let mut list = [0; 4];
    play(image, 100, &mut list)
}

fn waits(rt: &impl Print, name: &str, event: &[u8]) {
    let r = issued(&drawings::lone_command());
    refuse(rt, name, &Left::from(&r), event);
}

fn shape(rt: &impl Print) {
    let mut event = drawings::single(0, RETURN, 0);
    drawings::put16(&mut event, 4, 2);
    waits(rt, "Shape", &event);
}

// The next turn, with a list of its own.
fn turned(image: &[u8], r: &Ran, event: &[u8], budget: u16) -> Ran {
    let mut list = [0; 4];
    after(image, r, event, budget, &mut list)
}

// The lone command has returned and is Finished.
fn not_awaited(rt: &impl Print) {
    let image = drawings::lone_command();
    let r = turned(
        &image,
        &issued(&image),
        &drawings::single(0, RETURN, 0),
        100,
    );
    refuse(
        rt,
        "NotAwaited",
        &Left::from(&r),
        &drawings::single(1, RETURN, 0),
    );
}

// A run and a turn of the lone command, the list begun at this place.
fn both(rt: &impl Print, name: &str, held: &Left, start: usize) {
    let image = drawings::lone_command();
    pass_over(print!(rt; "{name}"));
    telling::show_run(rt, &image, held, start);
    telling::show_turn(rt, &image, held, b"", start);
    pass_over(println!(rt));
}

// "31 is now tested after 30 and before 20": the fresh plan is Running.
fn place(rt: &impl Print) {
    let s = start(&drawings::lone_command());
    both(rt, "Place", &Left::from(&s), 5);
}

// "NoRoom and Spent keep the event": state and card are those of a turn with budget 1, in which the lookup is False and the list fails.
fn no_room_in_turn(rt: &impl Print, image: &[u8]) {
    let event = drawings::single(0, LOOKUP, 0);
    let r = issued(image);
    let one = turned(image, &r, &event, 1);
    telling::show_turn_to(rt, image, &Left::from(&r), &event, 4, &Left::from(&one));
}

// "NoRoom keeps the steps already done": state and card are those of a run with budget 2.
fn no_room(rt: &impl Print) {
    let image = drawings::guarded();
    let mut list = [0; 4];
    let two = play(&image, 2, &mut list);
    pass_over(print!(rt; "NoRoom"));
    telling::show_run_to(
        rt,
        &image,
        &Left::from(&start(&image)),
        4,
        &Left::from(&two),
    );
    no_room_in_turn(rt, &image);
    pass_over(println!(rt));
}

fn events(rt: &impl Print) {
    busy(rt);
    shape(rt);
    waits(rt, "Turn", &drawings::single(1, RETURN, 0));
    waits(rt, "Entry", &drawings::single(0, 3, 0));
    waits(rt, "Twice", &drawings::twice(0, RETURN, 0));
    not_awaited(rt);
}

pub(crate) fn all(rt: &impl Print) {
    events(rt);
    both(rt, "State", &held(), 2);
    place(rt);
    no_room(rt);
}
