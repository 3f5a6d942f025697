// What a token adds to the counts of a plan.
ghost use Rattle.std.specs.Prelude.{◌≡◌, ◌<◌, get_or};
ghost use Rattle.recognise.specs.Codes.{say_of};
ghost use Rattle.recognise.specs.Counting.{weights, changes, change_list, adds, node, count_of, changed};
ghost use Rattle.recognise.specs.Replies.{change_is};
ghost use Rattle.recognise.specs.Room.{Room};

use super::Counts;

// What a token changes besides the entries that it makes.
#[derive(Clone, Copy)]
enum Change {
    Adds,
    Command,
    Lookup,
    Node,
    Opens,
    ClosesOne,
    Variable,
    // A name is held until it is known whether it is a variable's, which is one entry more.
    Holds,
    Answers,
    Settles,
}

// The tables hold numbers, as the definitions `weights` and `changes` of the same lists do. `weight` and `change_at` are each of one of them.

// How many entries a token makes, by the number of what it says.
const WEIGHTS: [u8; 94] = [
    0, 0, 0, 0, 0, 0, 0, 0, 0, 0, 0, 0, 0, 0, 0, 0, 0, 0, 0, 0, 0, 0, 0, 0, 0, 0, 0, 0, 0, 0, 0, 1,
    1, 1, 1, 1, 1, 1, 1, 1, 1, 1, 1, 0, 0, 1, 1, 1, 1, 1, 1, 1, 2, 2, 2, 2, 2, 2, 2, 1, 1, 1, 1, 2,
    2, 2, 2, 1, 1, 1, 1, 1, 1, 2, 2, 2, 2, 2, 2, 1, 1, 1, 1, 2, 1, 1, 1, 1, 1, 1, 1, 0, 0, 0,
];

// What else it changes.
const CHANGES: [u8; 94] = [
    0, 1, 0, 2, 2, 2, 3, 3, 4, 5, 0, 0, 0, 0, 0, 0, 0, 0, 0, 0, 6, 6, 6, 0, 0, 0, 0, 0, 0, 0, 0, 0,
    0, 0, 0, 0, 0, 0, 0, 0, 0, 0, 0, 7, 7, 8, 8, 8, 8, 8, 8, 8, 8, 8, 8, 8, 8, 8, 8, 8, 8, 8, 8, 8,
    8, 8, 8, 8, 8, 8, 8, 8, 8, 8, 8, 8, 8, 8, 8, 0, 9, 9, 9, 9, 9, 9, 9, 9, 9, 9, 9, 0, 9, 9,
];

fn weight(says: usize) -> u8
    requires { says < 94 }
    ensures { result ≡ get_or weights says 0 }
{
    WEIGHTS[says]
}

// The change of a number of the table, as the definition `change_list` has it: any other number is Adds and no error, so no `TryFrom`.
#[tactic(auto, unfolding(crate::specs::Replies::change_is, crate::specs::Counting::change_list))]
fn change_code(k: u8) -> Change
    ensures { change_is result ≡ get_or change_list k adds }
{
    match k {
        1 => Change::Command,
        2 => Change::Lookup,
        3 => Change::Node,
        4 => Change::Opens,
        5 => Change::ClosesOne,
        6 => Change::Variable,
        7 => Change::Holds,
        8 => Change::Answers,
        9 => Change::Settles,
        _ => Change::Adds,
    }
}

fn change_at(says: usize) -> Change
    requires { says < 94 }
    ensures { change_is result ≡ get_or change_list (get_or changes says 0) adds }
{
    change_code(CHANGES[says])
}

fn place_of(c: Counts, place: usize) -> usize
    requires { c.depth < 18446744073709551615 }
    ensures { result ≡ (changed node 0 place c).place }
{
    if c.deep {
        return c.place;
    }
    if 16 < c.depth + 1 { place } else { 0 }
}

// The counts after a token at a place, by the number of what it says.
pub fn count(c: Counts, says: u8, place: usize) -> Counts
    requires { (says < 94) × Room c }
    ensures { result ≡ count_of (say_of says) place c }
{
    let w = weight(says as usize) as usize;
    let r = Counts {
        entries: c.entries + w,
        ..c
    };
    match change_at(says as usize) {
        Change::Adds => r,
        Change::Command => Counts {
            commands: c.commands + 1,
            ..r
        },
        Change::Lookup => Counts {
            lookups: c.lookups + 1,
            ..r
        },
        Change::Node => Counts {
            nodes: c.nodes + 1,
            deep: c.deep | (16 < c.depth + 1),
            place: place_of(c, place),
            ..r
        },
        Change::Opens => Counts {
            depth: c.depth + 1,
            ..r
        },
        Change::ClosesOne => Counts {
            depth: c.depth.saturating_sub(1),
            ..r
        },
        Change::Variable => Counts {
            variables: c.variables + 1,
            ..r
        },
        Change::Holds => Counts { held: true, ..r },
        Change::Answers => Counts { held: false, ..r },
        Change::Settles => Counts {
            entries: r.entries + c.held as usize,
            held: false,
            ..r
        },
    }
}
