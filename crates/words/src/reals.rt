// The bits of a decimal: the fraction that its digits write, rounded once. By hand, since `real_bits` may not change: it promises the definition `real_bits`.
ghost use Rattle.std.specs.Prelude.{◌≡◌, ◌^◌, ◌<◌, ◌≤◌, true, false};
ghost use Rattle.std.specs.Float.Ieee as Ieee;
ghost use Rattle.std.specs.Float.{binary64};
ghost use Rattle.notation.specs.Numbers as Numbers;
ghost use Rattle.notation.specs.Numbers.{real_bits};
ghost use Rattle.words.specs.Exact.{exact};

use crate::numbers::all_digits;

// How many digits stand after '.'.
fn places(t: &[u8]) -> usize
    ensures { result ≡ Numbers.places t.now }
{
    match t.iter().position(|b| *b == b'.') {
        Some(i) => t.len() - i - 1,
        None => 0,
    }
}

// 10 to the power k; from 16 on it is 1.
fn power(k: usize) -> u64
    ensures { (0 < result) × (result ≤ 1000000000000000) × (k ≤ 15 → result ≡ 10 ^ k) }
{
    if 15 < k {
        return 1;
    }
    10u64.pow(k as u32)
}

// Whole numbers up to 2^53 are floats exactly, so that only the division rounds.
fn quotient(m: u64, d: u64) -> f64
    requires whole { m ≤ 9007199254740992 }
    requires divisor { (0 < d) × (d ≤ 9007199254740992) }
    ensures { result ≡ Ieee.round binary64 false m d }
{
    std::num::nearest_u64_to_f64(m) / std::num::nearest_u64_to_f64(d)
}

// The sign stays on a zero.
pub fn real_bits(t: &[u8], negative: bool) -> u64
    ensures { exact t.now ≡ true → result ≡ real_bits negative t.now }
{
    let m = all_digits(t);
    if 9007199254740992 < m {
        return 0;
    }
    let q = quotient(m, power(places(t)));
    if negative {
        return f64::to_bits(-q);
    }
    f64::to_bits(q)
}
