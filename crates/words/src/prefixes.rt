// How much of a token can begin a token of a class's lead: what refusal 40 counts of the token that it stops in.
ghost use Rattle.std.specs.Prelude.{◌≡◌, ◌+◌, ◌<◌, ◌≤◌, length, drop};
ghost use Rattle.grammar.specs.Leads.{name, real};
ghost use Rattle.grammar.specs.Scan.{viable_by, digits_up_to};
ghost use Rattle.words.specs.Viable.{viable_class, after_blanks, common_run};

use crate::decimals::digits_end;
use crate::numbers::{BOUNDS, onward};
use scan::{is_digit, is_letter};

// The place after the k-th blank of words: they stand in one run of bytes, as the definition `after_blanks` has them, and no map, which would need a heap.
fn start(words: &[u8], k: u8) -> usize
    ensures { (result ≤ length words.now) × (drop result words.now ≡ after_blanks k words.now) }
{
    let mut left = k;
    for i in 0..words.len() {
        if left == 0 {
            return i;
        }
        if words[i] == b' ' {
            left -= 1;
        }
    }
    words.len()
}

// How many bytes of t stand at the front of words, up to a blank.
fn common(words: &[u8], t: &[u8]) -> usize
    ensures { result ≡ common_run words.now t.now }
{
    let most = words.len().min(t.len());
    for i in 0..most {
        if words[i] == b' ' {
            return i;
        }
        if words[i] != t[i] {
            return i;
        }
    }
    most
}

fn word_prefix(words: &[u8], k: u8, t: &[u8]) -> usize
    ensures { result ≡ common_run (after_blanks k words.now) t.now }
{
    let from = start(words, k);
    common(&words[from..], t)
}

fn literal_prefix(class: u8, t: &[u8]) -> usize
    ensures { class < 67 → result ≡ viable_class class t.now }
{
    word_prefix(
        b"Command Lookup Boolean Integer Real RealBits NodeList Assignment Priority SkipCondition \
            StartCondition PreCondition InvariantCondition EndCondition PostCondition RepeatCondition \
            RepeatUntilCondition ExitCondition NOT AND OR true false UNKNOWN LookupNow LookupOnChange state \
            outcome failure failureType INACTIVE WAITING EXECUTING FINISHING FAILING ITERATION_ENDED FINISHED \
            NONE SUCCESS FAILURE SKIPPED INTERRUPTED PRE POST INVARIANT PARENT WRITE_LOST { } ( ) : ; = . == != \
            < <= > >= + - * && || ! ",
        class,
        t,
    )
}

// All of t, if it begins with a letter.
fn name_prefix(t: &[u8]) -> usize
    ensures { result ≡ viable_by name t.now }
{
    if t.is_empty() {
        return 0;
    }
    if is_letter(t[0]) { t.len() } else { 0 }
}

// Digits that write a number up to the bound.
fn number_prefix(t: &[u8], bound: u64) -> usize
    requires { bound ≤ 9223372036854775808 }
    ensures { result ≡ digits_up_to bound 0 t.now }
{
    let mut n = 0;
    for i in 0..t.len() {
        if !is_digit(t[i]) {
            return i;
        }
        n = onward(n, t[i]);
        if bound < n {
            return i;
        }
    }
    t.len()
}

// What can become a decimal: at most 14 digits stand before '.', since one must come after it, and at most 15 in all.
fn real_prefix(t: &[u8]) -> usize
    ensures { result ≡ viable_by real t.now }
{
    let whole = digits_end(t, 0, 14);
    if whole == 0 {
        return 0;
    }
    if whole == t.len() {
        return whole;
    }
    if t[whole] != b'.' {
        return whole;
    }
    digits_end(t, whole + 1, 15 - whole)
}

pub fn viable(class: u8, t: &[u8]) -> usize
    ensures { result ≡ viable_class class t.now }
{
    if class < 67 {
        return literal_prefix(class, t);
    }
    match class {
        67 => name_prefix(t),
        68..=73 => number_prefix(t, BOUNDS[(class - 68) as usize]),
        74 => real_prefix(t),
        _ => 0,
    }
}
