// The declarations before the plan's node: their kinds and numbers into a table, the lookups' records into the image.
ghost use Rattle.build.specs.Declarations.{Numbers, Records, Declares};

use super::steps::next;
use super::write::put_lookup;
use names::Tables;
use recognise::Cursor;
use words::number_of;

// The number of the command i.
fn number(text: &[u8], kind: &mut [usize; 704], i: usize, at: Cursor)
    ensures { Numbers text.now i at kind.old kind.new }
{
    if let Some(digits) = text.get(at.from..at.to) {
        if i < 256 {
            kind[i] = number_of(digits) as usize;
        }
    }
}

// The lookup i, of kind k.
fn lookup(image: &mut [u8; 41108], kind: &mut [usize; 704], base: usize, i: usize, k: u8)
    ensures { Records base i k image.old kind.old image.new kind.new }
{
    if i < 64 {
        if base <= 40980 {
            kind[256 + i] = k as usize;
            put_lookup(image, base + 2 * i, k);
        }
    }
}

// From the beginning of the text to the opening of the plan's node.
pub(crate) fn declarations<'a>(
    names: Tables<'a>,
    image: &mut [u8; 41108],
    kind: &mut [usize; 704],
    base: usize,
) -> Cursor
    ensures { Declares names.entry.text.now names.entry.owner.now base image.old kind.old result image.new kind.new }
{
    let mut at = next(names, recognise::begin(names.owner));
    let mut commands: usize = 0;
    let mut lookups: usize = 0;
    for _ in 0..names.text.len() {
        let says = at.says;
        if says > 5 {
            return at;
        }
        if says > 2 {
            lookup(image, kind, base, lookups, says - 3);
            lookups += 1;
        } else {
            at = next(names, at);
            number(names.text, kind, commands, at);
            commands += 1;
        }
        at = next(names, at);
    }
    at
}
