// Decimals: digits, '.' and digits, at most 15 in all.
ghost use Rattle.std.specs.Prelude.{◌≡◌, ◌+◌, drop};
ghost use Rattle.grammar.specs.Leads.{is_real, fraction};
ghost use Rattle.grammar.specs.Scan.{some_digits};

use crate::numbers::only_digits;
use scan::{is_digit, run_end};

// The place after at most k digits from `at` on: text and place, as the definition `some_digits` is of what is dropped, and `real_prefix` goes on from there.
pub(crate) fn digits_end(t: &[u8], at: usize, k: usize) -> usize
    ensures { result ≡ at + some_digits k (drop at t.now) }
{
    let end = at.saturating_add(k).min(t.len());
    run_end(&t[..end], at, |b| is_digit(b))
}

// 1 to k digits, and no other byte.
fn is_fraction(t: &[u8], k: usize) -> bool
    ensures { result ≡ fraction k t.now }
{
    if t.is_empty() {
        return false;
    }
    if k < t.len() {
        return false;
    }
    only_digits(t, 0)
}

// Digits, '.' and digits, at most 15 in all. Beside `real_prefix`, with which it shares `digits_end`: that also counts what is no decimal yet, as "12"
// and "12.", so that by it this would ask of '.' and of the last byte again.
pub fn is_real(t: &[u8]) -> bool
    ensures { result ≡ is_real t.now }
{
    let whole = digits_end(t, 0, 14);
    if whole == 0 {
        return false;
    }
    if whole == t.len() {
        return false;
    }
    if t[whole] != b'.' {
        return false;
    }
    is_fraction(&t[whole + 1..], 15 - whole)
}
