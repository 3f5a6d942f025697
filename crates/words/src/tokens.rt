// The class of a token.
ghost use Rattle.std.specs.Prelude.{◌≡◌};
ghost use Rattle.grammar.specs.Leads.{is_word};
ghost use Rattle.notation.specs.Classes.{class_of, other_class};

use crate::decimals::is_real;
use crate::literals::literal;
use crate::numbers::{all_digits, is_number, number_class};
use scan::{is_letter, is_word_byte};

fn is_word(t: &[u8]) -> bool
    ensures { result ≡ is_word t.now }
{
    let Some((first, rest)) = t.split_first() else {
        return false;
    };
    if !is_letter(*first) {
        return false;
    }
    rest.iter().all(|b| is_word_byte(*b))
}

// The class of a token that is no word or sign of the notation.
fn other_class(t: &[u8]) -> u8
    ensures { result ≡ other_class t.now }
{
    if is_word(t) {
        return 67;
    }
    if is_number(t) {
        return number_class(all_digits(t));
    }
    if is_real(t) {
        return 74;
    }
    75
}

pub fn class_of(t: &[u8]) -> u8
    ensures { result ≡ class_of t.now }
{
    let k = literal(t);
    if k < 67 {
        return k;
    }
    other_class(t)
}
