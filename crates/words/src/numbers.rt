// The number that a token's digits write, and a number with its sign as 64 bits. No `parse` and no `TryFrom`: the definitions `all_digits` and
// `value_from` answer for any bytes, and what may not change, `number_of`, `signed` and `signed_bits` promise what the definitions say.
ghost use Rattle.std.specs.Prelude.{◌≡◌, ◌+◌, ◌-◌, ◌*◌, ◌<◌, ◌≤◌, true, drop};
ghost use Rattle.grammar.specs.Leads.{digits, is_number, value_from};
ghost use Rattle.notation.specs.Numbers as Numbers;
ghost use Rattle.notation.specs.Numbers.{all_digits, signed_bits};
ghost use Rattle.notation.specs.Classes.{bounds, number_class};
ghost use Rattle.words.specs.Capped.{capped};

use scan::is_digit;

// The highest number that a text can write, and one that stands for all that are past it.
const HIGHEST: u64 = 9223372036854775808;

const PAST: u64 = 9223372036854775809;

// The highest whole numbers of the classes 68 to 73.
pub const BOUNDS: [u64; 6] = [
    65534,
    65535,
    999999999999999,
    9218868437227405311,
    9223372036854775807,
    9223372036854775808,
];

// One digit more; past 2^63 a number is not told from 2^63 + 1.
pub fn onward(n: u64, b: u8) -> u64
    ensures { result ≡ capped (n * 10 + (b - 48)) }
{
    let digit = b.saturating_sub(b'0') as u64;
    n.saturating_mul(10).saturating_add(digit).min(PAST)
}

// The digits of t as one number, '.' left out.
pub fn all_digits(t: &[u8]) -> u64
    ensures { result ≡ capped (all_digits 0 t.now) }
{
    let mut n = 0;
    for b in t {
        if *b != b'.' {
            n = onward(n, *b);
        }
    }
    n
}

// From `at` on there are only digits.
pub fn only_digits(t: &[u8], at: usize) -> bool
    ensures { result ≡ digits (drop at t.now) }
{
    let from = at.min(t.len());
    t[from..].iter().all(|b| is_digit(*b))
}

pub fn is_number(t: &[u8]) -> bool
    ensures { result ≡ is_number t.now }
{
    if t.is_empty() {
        return false;
    }
    only_digits(t, 0)
}

pub fn number_of(t: &[u8]) -> u64
    ensures { is_number t.now ≡ true → value_from 0 t.now ≤ 9223372036854775808 → result ≡ value_from 0 t.now }
{
    all_digits(t)
}

// The class of a whole number: the first bound that it does not pass.
pub fn number_class(n: u64) -> u8
    ensures { result ≡ number_class 68 bounds n }
{
    match BOUNDS.iter().position(|bound| n <= *bound) {
        Some(i) => 68 + i as u8,
        None => 75,
    }
}

// Two's complement of n, where it is negative.
pub fn signed(negative: bool, n: u64) -> u64
    ensures { result ≡ Numbers.signed negative n }
{
    if negative { n.wrapping_neg() } else { n }
}

// A float's bits with the sign's bit, where it is negative.
pub fn signed_bits(negative: bool, n: u64) -> u64
    ensures { n < 9223372036854775808 → result ≡ signed_bits negative n }
{
    if !negative {
        return n;
    }
    if HIGHEST <= n {
        return n;
    }
    HIGHEST + n
}
