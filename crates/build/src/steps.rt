// From one saying to the next.
ghost use Rattle.recognise.specs.Tape.{Tape};
ghost use Rattle.build.specs.Steps.{Stepped};

use names::Tables;
use recognise::Cursor;

// Where a reader of expressions stands, and how many entries there are.
#[derive(Clone, Copy)]
pub struct Progress {
    pub at: Cursor,
    pub entries: usize,
}

// To the next saying.
pub fn next<'a>(names: Tables<'a>, c: Cursor) -> Cursor
    ensures { Tape names.entry.text.now names.entry.owner.now → Stepped names.entry.text.now c result }
{
    recognise::next(names.text, names.owner, c)
}
