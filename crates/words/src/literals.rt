// The words and signs of the notation, by their length: each is followed by its class. For what is none of them the definitions `found_in` and
// `literal_class` have 67, the class of names. A run of bytes and no map, which would need a heap; a table by length would have the same rows as `literal`.
ghost use Rattle.std.specs.Prelude.{◌≡◌};
ghost use Rattle.words.specs.Groups.{found_in, literal_class};

use crate::bytes::same;

// The class that follows t in a group of words of t's length, or 67.
fn found(group: &[u8], t: &[u8]) -> u8
    ensures { result ≡ found_in group.now t.now }
{
    let n = t.len();
    let mut rest = group;
    while n < rest.len() {
        let (word, later) = rest.split_at(n);
        if same(word, t) {
            return later[0];
        }
        rest = &later[1..];
    }
    67
}

// The class of a word or sign of the notation; 67 where t is none.
pub fn literal(t: &[u8]) -> u8
    ensures { result ≡ literal_class t.now }
{
    match t.len() {
        1 => found(
            b";\x34:\x33{\x2f}\x30(\x31)\x32=\x35.\x36<\x39>\x3b+\x3d-\x3e*\x3f!\x42",
            t,
        ),
        2 => found(b"OR\x14==\x37!=\x38<=\x3a>=\x3c&&\x40||\x41", t),
        3 => found(b"NOT\x12AND\x13PRE\x2a", t),
        4 => found(b"Real\x04true\x15NONE\x25POST\x2b", t),
        5 => found(b"false\x16state\x1a", t),
        6 => found(b"Lookup\x01PARENT\x2d", t),
        7 => found(
            b"Command\x00Boolean\x02Integer\x03UNKNOWN\x17outcome\x1bfailure\x1cWAITING\x1fFAILING\x22SUCCESS\x26FAILURE\x27SKIPPED\x28",
            t,
        ),
        8 => found(
            b"RealBits\x05NodeList\x06Priority\x08INACTIVE\x1eFINISHED\x24",
            t,
        ),
        9 => found(b"LookupNow\x18EXECUTING\x20FINISHING\x21INVARIANT\x2c", t),
        10 => found(b"Assignment\x07WRITE_LOST\x2e", t),
        11 => found(b"failureType\x1dINTERRUPTED\x29", t),
        12 => found(b"PreCondition\x0bEndCondition\x0d", t),
        13 => found(b"SkipCondition\x09PostCondition\x0eExitCondition\x11", t),
        14 => found(b"StartCondition\x0aLookupOnChange\x19", t),
        15 => found(b"RepeatCondition\x0fITERATION_ENDED\x23", t),
        18 => found(b"InvariantCondition\x0c", t),
        20 => found(b"RepeatUntilCondition\x10", t),
        _ => 67,
    }
}
