// The machine that follows a text of the notation, token by token: what is still to come is told by a position, a set and two counts.
// Positions, marks, classes and sayings are numbers, as the definitions of specs/Positions, specs/Hears and specs/Codes have them.
#![tactic(auto)]

mod counting;
mod recognising;
mod steps;
mod tables;
mod taking;
mod tape;

pub use recognising::recognise;
pub use steps::{Went, step};
pub use taking::{Halt, Taken, take};
pub use tape::{begin, next};

// What a cursor has last heard at the end of the text: it is no number of a saying.
const OVER: u8 = 94;

// What is still to come: the position, a mark for each attribute that the node has, what follows the expression at hand, its open
// parentheses, and the open lists.
#[derive(Clone, Copy)]
pub struct Ahead {
    pub at: u8,
    pub met: [u8; 8],
    pub rear: u8,
    pub parens: usize,
    pub lists: usize,
}

// The counts of a plan while its text is followed: what has been declared and begun, the entries that are made or pending, the open lists,
// whether a name is held that may be a variable's, and whether a node lies too deep, and where the first such begins. Flags and no Option: the definitions
// `changed` and `count_of` have each field, and count `held` as an entry.
#[derive(Clone, Copy, Default)]
pub struct Counts {
    pub nodes: usize,
    pub entries: usize,
    pub variables: usize,
    pub lookups: usize,
    pub commands: usize,
    pub depth: usize,
    pub held: bool,
    pub deep: bool,
    pub place: usize,
}

// What is told of a text before it is read. No Result, and no `Counts` within: `recognise` promises the definition `recognised_of`, which has each field.
#[derive(Clone, Copy, Default)]
pub struct Recognised {
    pub accepted: bool,
    pub reach: usize,
    pub deep: bool,
    pub place: usize,
    pub nodes: usize,
    pub entries: usize,
    pub variables: usize,
    pub lookups: usize,
    pub commands: usize,
}

// A place, the last token that said something with the number of what it said, and what is still to come. Where the tape has the text, with
// so many sayings, the place is the number of those that were heard; where it has not, `sayings` is 0, and the place is one in the text.
// All are numbers, as `Scanned`, `Advanced` and `Begun` of the definitions have them: `says` is 94 after the last saying, the number `over`.
#[derive(Clone, Copy)]
pub struct Cursor {
    pub at: usize,
    pub from: usize,
    pub to: usize,
    pub sayings: usize,
    pub ahead: Ahead,
    pub says: u8,
}
