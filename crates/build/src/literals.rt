// Constants: their kinds, and their bits from the bytes of a token.
ghost use Rattle.build.specs.Literals.{OfLeaf, WordAt, Adds, known_of, kind_of};

use super::entries::{CONSTANT, emit};
use super::known::Source;
use super::rows::row;
use super::write::Entry;
use recognise::Cursor;
use words::{number_of, real_bits, signed, signed_bits};

// "0 Bool, 1 Int, 2 Real", by the number of what is said, from 31 on
const KINDS: [u8; 11] = [0, 0, 1, 1, 2, 2, 2, 2, 0, 1, 2];

fn kind(says: u8) -> u8
    ensures { OfLeaf kind_of says result }
{
    row(&KINDS, 31, says)
}

fn known(says: u8) -> usize
    ensures { OfLeaf known_of says result }
{
    if says < 39 { 1 } else { 0 }
}

// The bits of a constant, by the number of what is said and where its token stands.
pub fn word(text: &[u8], says: u8, from: usize, to: usize) -> u64
    ensures { WordAt text.now says from to result }
{
    if says > 38 {
        return 0;
    }
    if says == 32 {
        return 1;
    }
    if says < 33 {
        return 0;
    }
    let Some(token) = text.get(from..to) else {
        return 0;
    };
    if says < 35 {
        return signed(says == 34, number_of(token));
    }
    if says < 37 {
        return real_bits(token, says == 36);
    }
    signed_bits(says == 38, number_of(token))
}

// The entry of a constant.
pub fn literal<'a>(source: Source<'a>, image: &mut [u8; 41108], at: Cursor, n: usize) -> usize
    ensures { Adds source.entry.names.text.now source.entry.base n at image.old result image.new }
{
    let e = Entry {
        op: CONSTANT,
        kind: kind(at.says),
        a: 0,
        b: known(at.says),
        word: word(source.names.text, at.says, at.from, at.to),
    };
    emit(image, source.base, n, e)
}
