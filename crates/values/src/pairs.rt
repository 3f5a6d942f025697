// The two operands of EQ to MUL, and EQ, which takes two of any one kind.
ghost use Rattle.std.specs.Prelude.{◌≡◌};
ghost use Rattle.plexil.specs.Values.{pair_of, eq_of};

use plexil::{Pair, Worked};

// The two operands, with their common kind.
pub fn pair_of(a: Worked, b: Worked) -> Pair
    ensures { result ≡ pair_of a b }
{
    match (a, b) {
        (Worked::Bool(x), Worked::Bool(y)) => Pair::Bools(x, y),
        (Worked::Int(x), Worked::Int(y)) => Pair::Ints(x, y),
        (Worked::Real(x), Worked::Real(y)) => Pair::Reals(x, y),
        (Worked::Unknown, Worked::Bool(_)) | (Worked::Bool(_), Worked::Unknown) =>
            Pair::UnknownBool,
        (Worked::Unknown, Worked::Unknown | Worked::Int(_) | Worked::Real(_)) => Pair::Unknown,
        (Worked::Int(_) | Worked::Real(_), Worked::Unknown) => Pair::Unknown,
        _ => Pair::Clash,
    }
}

// "Comparison of known reals is IEEE's, so 0.0 equals -0.0"
pub fn eq_of(p: Pair) -> Worked
    ensures { result ≡ eq_of p }
{
    match p {
        Pair::Clash => Worked::Clash,
        Pair::Unknown | Pair::UnknownBool => Worked::Unknown,
        Pair::Bools(x, y) => Worked::Bool(x == y),
        Pair::Ints(x, y) => Worked::Bool(x == y),
        Pair::Reals(x, y) => Worked::Bool(x == y),
    }
}
