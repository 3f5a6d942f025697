// The tests of bytes that tell tokens apart. `|` and `&` stand where a branch would make a case of each test.
#![tactic(auto, unfolding(grammar::specs::Spelling::is_blank, grammar::specs::Spelling::is_letter, grammar::specs::Spelling::is_digit, grammar::specs::Spelling::is_word_byte, grammar::specs::Spelling::is_pair, crate::specs::Runs::is_number_byte))]

ghost use Rattle.std.specs.Prelude.{◌≡◌};
ghost use Rattle.grammar.specs.Spelling.{is_blank, is_letter, is_digit, is_word_byte, is_pair};
ghost use Rattle.scan.specs.Runs.{is_number_byte};

pub fn is_blank(b: u8) -> bool
    ensures { result ≡ is_blank b }
{
    (b == b' ') | (b == b'\t') | (b == b'\n') | (b == b'\r')
}

pub fn is_letter(b: u8) -> bool
    ensures { result ≡ is_letter b }
{
    b.is_ascii_alphabetic()
}

pub fn is_digit(b: u8) -> bool
    ensures { result ≡ is_digit b }
{
    b.is_ascii_digit()
}

pub fn is_word_byte(b: u8) -> bool
    ensures { result ≡ is_word_byte b }
{
    is_letter(b) | is_digit(b) | (b == b'_')
}

// A byte that a number takes: "12ab" and "1.5.2" are one token each.
pub fn is_number_byte(b: u8) -> bool
    ensures { result ≡ is_number_byte b }
{
    is_word_byte(b) | (b == b'.')
}

// A sign of two bytes.
pub fn is_pair(c: u8, b: u8) -> bool
    ensures { result ≡ is_pair c b }
{
    ((b == b'=') & ((c == b'<') | (c == b'>') | (c == b'=') | (c == b'!')))
        | ((c == b'&') & (b == b'&'))
        | ((c == b'|') & (b == b'|'))
}
