// "40 Text ..; 41 Level; 42 Name ..; 3; 43 ImageRoom": the refusals of a text before its image is made.
ghost use Rattle.std.specs.Prelude.{◌≡◌, List, length};
ghost use Rattle.grammar.specs.Table.{Said};
ghost use Rattle.notation.specs.Sayings.{Saying};
ghost use Rattle.notation.specs.Hearing.{draft_of};
ghost use Rattle.notation.specs.Names.{bad_name};
ghost use Rattle.recognise.specs.Recognised.{accepted_as};
ghost use Rattle.names.specs.Answers.{Accepted};
ghost use Rattle.names.specs.Tables.{Prepared};
ghost use Rattle.read.specs.Survey.{named_by, reply_by, Refuses, Surveyed};

use super::limits::{length_of, over_limits};
use super::reply::{ReadReply, refused};
use names::{Tables, Told};
use recognise::Recognised;

// What a look over a text that is not refused has found: how long its image is, its counts, and the counts of its tables.
#[derive(Clone, Copy)]
pub struct Overview {
    pub made: usize,
    pub seen: Recognised,
    pub told: Told,
}

// 42, 3 and 43, for a text of the notation within the levels; else how long its image is. A refusal keeps its number: the definition of the reply
// (notation, Reading.antt: read_reply) has the numbers.
fn named<'a>(tables: Tables<'a>, seen: Recognised, room: usize) -> Result<usize, ReadReply>
    ensures { ((l : List (Said Saying)) → Accepted tables.entry.text.now l → seen ≡ accepted_as (draft_of l) → Prepared tables.entry l
        → reply_by result ≡ named_by (bad_name (draft_of l)) (draft_of l) room) × Refuses result }
{
    if let Some(place) = names::bad_name(tables) {
        return Err(refused(42, place));
    }
    if over_limits(seen) {
        return Err(refused(3, 0));
    }
    let n = length_of(seen);
    if room < n {
        return Err(refused(43, 0));
    }
    Ok(n)
}

// What refuses a text before its image is made, with so much room for it; else what was found. The tables of its declarations, and the
// tape behind the owners, are lent by three arguments: `Tables` borrows them only to read, once they are filled (no heap, fixed memory).
pub(crate) fn survey(
    text: &[u8],
    room: usize,
    from: &mut [usize; 704],
    to: &mut [usize; 704],
    owner: &mut [usize; 10525],
) -> Result<Overview, ReadReply>
    ensures { length from.old ≡ 704 → length to.old ≡ 704 → length owner.old ≡ 10525
        → Surveyed text.now room from.new to.new owner.new result }
{
    let seen = recognise::recognise(text, owner);
    if !seen.accepted {
        return Err(refused(40, seen.reach));
    }
    if seen.deep {
        return Err(refused(41, seen.place));
    }
    let told = names::fill(text, from, to, owner);
    let tables = Tables {
        text,
        from,
        to,
        owner,
        told,
    };
    let made = named(tables, seen, room)?;
    Ok(Overview { made, seen, told })
}
