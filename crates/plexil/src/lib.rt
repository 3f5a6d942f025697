// The types that the code and the definitions of document 01 share; what they mean is in specs/. Functions are those that the types or the definitions' lists have.
#![tactic(auto)]

mod carry;
mod codes;
mod lent;
mod lists;

pub use carry::Carry;
pub use lent::{Before, Seen};
pub use lists::{all_below, any_below, first, get_or};

// A worked-out expression: a known value carries its kind. Clash: a value of another kind was met.
#[derive(Clone, Copy)]
pub enum Worked {
    Clash,
    Unknown,
    Bool(bool),
    Int(i64),
    Real(f64),
}

// The two operands of EQ to MUL. UnknownBool: one is Unknown, the other a known Bool.
#[derive(Clone, Copy)]
pub enum Pair {
    Clash,
    Unknown,
    UnknownBool,
    Bools(bool, bool),
    Ints(i64, i64),
    Reals(f64, f64),
}

// A kept value: the tag is 0 for Unknown, else one more than the kind; Unknown has bits 0. An Option of a kind and bits would not be what
// State's arrays keep, which C lends, nor what the definition cell (specs/Values) makes of them.
#[derive(Clone, Copy, PartialEq, Eq)]
pub struct Cell {
    pub tag: u8,
    pub bits: u64,
}

// A state. The cell of variable v is (vartags[v], varbits[v]), that of lookup l (looktags[l], lookbits[l]). Arrays side by side and codes as numbers, since C lends it so.
#[repr(C)]
#[derive(Clone, Copy, PartialEq, Eq)]
pub struct State {
    pub status: [u8; 256],
    pub outcome: [u8; 256],
    pub failure: [u8; 256],
    pub mark: [u8; 256],
    pub vartags: [u8; 128],
    pub varbits: [u64; 128],
    pub looktags: [u8; 64],
    pub lookbits: [u64; 64],
}

// The turn card: the next serial, and the phase, 0 Running or 1 Quiet, a number since C lends it so.
#[repr(C)]
#[derive(Clone, Copy, PartialEq, Eq)]
pub struct Card {
    pub serial: u32,
    pub phase: u32,
}

// How many nodes, expressions, variables and lookups an admitted plan has.
#[repr(C)]
#[derive(Clone, Copy)]
pub struct Counts {
    pub nodes: u16,
    pub exprs: u16,
    pub vars: u16,
    pub looks: u16,
}

// The status of a node, in the order of its codes.
#[derive(Clone, Copy, PartialEq, Eq)]
pub enum Status {
    Inactive,
    Waiting,
    Executing,
    Finishing,
    Failing,
    IterationEnded,
    Finished,
}

// The conditions of a node, in record order.
#[derive(Clone, Copy)]
pub enum Condition {
    Skip,
    Start,
    Pre,
    Inv,
    End,
    Post,
    Repeat,
}

// What a rule makes of outcome and failure. Failed has the outcome and the failure, by the codes that State's arrays keep, which C lends; Judged: IterationEnded through End or Finishing.
#[derive(Clone, Copy)]
pub enum Effect {
    Kept,
    Cleared,
    Skipped,
    Failed(u8, u8),
    Judged,
}

// What a node does in a micro step. Stay: no rule applies. An enum of its own and no Option: what may not change, the definitions move_of (specs/Atomic) and Atomic
// (specs/Framework), on which the theorems of specs/FrameworkPromises stand, speak of Stay and Go, and atomic::move_of answers them.
#[derive(Clone, Copy)]
pub enum Move {
    Stay,
    Go(Status, Effect),
}

// What stands at a node's place.
#[derive(Clone, Copy)]
pub struct Place {
    pub status: u8,
    pub outcome: u8,
    pub failure: u8,
    pub mark: u8,
}

// The rules of a plan image, in the order of their refusal numbers.
#[derive(Clone, Copy)]
pub enum Rule {
    Short,
    Edition,
    Count,
    Layout,
    Tree,
    Node,
    Variable,
    Lookup,
    Expression,
    Deep,
    Kind,
    Reach,
}

// The check's verdict: the lowest broken rule, with the lowest record number that breaks it. An enum of its own and no Result: what may not change, admit::check,
// plan::open and turns::fresh answer it, and the theorems refused-exact and admitted-exact speak of Admitted and Refused.
#[derive(Clone, Copy)]
pub enum Verdict {
    Admitted,
    Refused(Rule, u16),
}

// The reply of the check: the counts are 0 where the image is refused.
#[derive(Clone, Copy)]
pub struct Checked {
    pub verdict: Verdict,
    pub counts: Counts,
}

// The reply of a fresh start.
#[derive(Clone, Copy)]
pub struct Started {
    pub verdict: Verdict,
    pub state: State,
    pub card: Card,
}

// How a run or a turn ended. Busy to NotAwaited are a turn's alone; Entry, Twice and NotAwaited name the event's entry.
#[derive(Clone, Copy)]
pub enum RunAnswer {
    Refused(Rule, u16),
    State,
    Place,
    Busy,
    Shape,
    Turn,
    Entry(u16),
    Twice(u16),
    NotAwaited(u16),
    NoRoom,
    Spent,
    Quiet,
}

// The reply of a run or a turn: the count of steps done and the next free place in the list.
#[derive(Clone, Copy)]
pub struct Ran {
    pub answer: RunAnswer,
    pub steps: u16,
    pub next: usize,
    pub state: State,
    pub card: Card,
}
