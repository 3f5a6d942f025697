// What each call writes, and that it answers an error of writing and writes nothing after it.
use super::{Left, after, check, fresh, judge, play, run, run_to, start, turn, turn_to};
use plexil::Ran;
use std::cell::{Cell, RefCell};
use std::fmt::{Display, Write};
use std::io;
use std::process::Abort;
use std::test::Fail;

// A page on which one piece of writing fails, after so many, or none does. Those after it are written.
#[derive(Drop)]
struct Page {
    before: Cell<Option<u8>>,
    text: RefCell<String>,
}

fn full() -> io::Error {
    io::Error::from(io::ErrorKind::StorageFull)
}

impl Page {
    fn of(rt: &impl AllocGlobal, before: Option<u8>) -> Page {
        Page {
            before: Cell::new(before),
            text: RefCell::new(String::new(rt.alloc())),
        }
    }

    fn add<D: Display + Drop>(&self, value: D) -> io::Result<()> {
        let before = self.before.get();
        self.before.set(before.and_then(|n| n.checked_sub(1)));
        if before == Some(0) {
            return Err(full());
        }
        let mut text = self.text.try_borrow_mut().map_err(|_| full())?;
        write!(text, "{value}").map_err(|_| full())
    }
}

impl Print for Page {
    fn print<D: Display + Drop>(&self, value: D) -> io::Result<()> {
        self.add(value)
    }

    fn println<D: Display + Drop>(&self, value: D) -> io::Result<()> {
        self.add(format_args!("{value}\n"))
    }

    fn write_all(&self, bytes: &[u8]) -> io::Result<()> {
        self.add(std::str::from_utf8(bytes).map_err(|_| full())?)
    }
}

// "44 bytes hold the smallest plan": a list without children.
const SMALLEST: [u8; 44] = [
    1, 0, 1, 0, 0, 0, 0, 0, 0, 0, 20, 0, 44, 0, 44, 0, 44, 0, 44, 0, 255, 255, 0, 0, 0, 0, 255,
    255, 255, 255, 255, 255, 255, 255, 255, 255, 255, 255, 255, 255, 255, 255, 255, 255,
];

// The same with command 7 in place of the list.
fn command() -> [u8; 44] {
    let mut image = SMALLEST;
    image[22] = 1;
    image[40] = 7;
    image[41] = 0;
    image
}

// An event without an entry, of serial 0.
const NOTHING: [u8; 8] = [0; 8];

fn begun() -> Left {
    Left::from(&start(&SMALLEST))
}

fn ended() -> Ran {
    play(&SMALLEST, 100, &mut [9; 4])
}

fn turned() -> Left {
    Left::from(&after(&SMALLEST, &ended(), &NOTHING, 100, &mut [9; 4]))
}

// "19 bytes are Short", 1.
#[test]
fn verdicts_and_starts_are_told(rt: HostRuntime) -> Result<(), Fail> {
    let page = Page::of(&rt, None);
    judge(&page, "44 bytes", &SMALLEST)?;
    check(&page, ", 19 bytes", &[0; 19])?;
    fresh(&page, &SMALLEST, &begun())?;
    fresh(&page, &SMALLEST, &Left::from(&ended()))?;
    let text = page.text.into_inner();
    assert_eq!(rt;
        text.as_str(),
        "44 bytes admitted, 19 bytes 1 0\n, fresh admitted kept, fresh admitted changed"
    );
    Ok(())
}

// "Childless list": 4 steps. "Lone command": one step, and a word. A start past the list's end is Place, 31.
#[test]
fn runs_are_told(rt: HostRuntime) -> Result<(), Fail> {
    let page = Page::of(&rt, None);
    let issuing = Left::from(&start(&command()));
    run(&page, &SMALLEST, &begun(), 0)?;
    run(&page, &SMALLEST, &begun(), 5)?;
    run_to(&page, &SMALLEST, &begun(), 0, &Left::from(&ended()))?;
    run(&page, &command(), &issuing, 0)?;
    let text = page.text.into_inner();
    assert_eq!(rt;
        text.as_str(),
        ", run quiet 4 next 0 changed kept, run 31 0 0 next 5 kept kept, run quiet 4 next 0 kept kept, run quiet 1 next 1 changed changed"
    );
    Ok(())
}

// A plan that has ended takes no step. An event of no bytes is Shape, 21, a start past the list's end Place.
#[test]
fn turns_are_told(rt: HostRuntime) -> Result<(), Fail> {
    let page = Page::of(&rt, None);
    let ended = Left::from(&ended());
    turn(&page, &SMALLEST, &ended, &NOTHING, 0)?;
    turn(&page, &SMALLEST, &ended, &NOTHING, 5)?;
    turn(&page, &SMALLEST, &ended, b"", 0)?;
    turn_to(&page, &SMALLEST, &ended, &NOTHING, 0, &turned())?;
    let text = page.text.into_inner();
    assert_eq!(rt;
        text.as_str(),
        ", turn quiet 0 next 0 changed kept, turn 31 0 0 next 5 kept kept, turn 21 0 0 next 0 kept kept, turn quiet 0 next 0 kept kept"
    );
    Ok(())
}

// An error is answered, and nothing is written after it.
fn assert_stopped(rt: &impl Abort, answered: io::Result<()>, page: Page, written: &str) {
    assert!(rt; answered.is_err());
    let text = page.text.into_inner();
    assert_eq!(rt; text.as_str(), written);
}

#[test]
fn a_first_piece_that_fails_is_answered(rt: HostRuntime) {
    let held = begun();
    let page = Page::of(&rt, Some(0));
    assert_stopped(&rt, judge(&page, "44 bytes", &SMALLEST), page, "");
    let page = Page::of(&rt, Some(0));
    assert_stopped(&rt, check(&page, "19 bytes", &[0; 19]), page, "");
    let page = Page::of(&rt, Some(0));
    assert_stopped(&rt, fresh(&page, &SMALLEST, &held), page, "");
    let page = Page::of(&rt, Some(0));
    assert_stopped(&rt, run(&page, &SMALLEST, &held, 0), page, "");
    let page = Page::of(&rt, Some(0));
    assert_stopped(&rt, run_to(&page, &SMALLEST, &held, 0, &held), page, "");
    let page = Page::of(&rt, Some(0));
    assert_stopped(&rt, turn(&page, &SMALLEST, &held, &NOTHING, 0), page, "");
    let page = Page::of(&rt, Some(0));
    assert_stopped(
        &rt,
        turn_to(&page, &SMALLEST, &held, &NOTHING, 0, &held),
        page,
        "",
    );
}

#[test]
fn a_second_piece_that_fails_is_answered(rt: HostRuntime) {
    let held = begun();
    let page = Page::of(&rt, Some(1));
    assert_stopped(
        &rt,
        check(&page, "19 bytes", &[0; 19]),
        page,
        "19 bytes 1 0",
    );
    let page = Page::of(&rt, Some(1));
    assert_stopped(&rt, run(&page, &SMALLEST, &held, 0), page, ", run");
    let page = Page::of(&rt, Some(1));
    assert_stopped(
        &rt,
        run_to(&page, &SMALLEST, &held, 0, &held),
        page,
        ", run",
    );
    let page = Page::of(&rt, Some(1));
    assert_stopped(
        &rt,
        turn(&page, &SMALLEST, &held, &NOTHING, 0),
        page,
        ", turn",
    );
    let page = Page::of(&rt, Some(1));
    assert_stopped(
        &rt,
        turn_to(&page, &SMALLEST, &held, &NOTHING, 0, &held),
        page,
        ", turn",
    );
}
