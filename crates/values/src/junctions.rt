// AND and OR: one definition, with the value that decides.
ghost use Rattle.std.specs.Prelude.{◌≡◌};
ghost use Rattle.plexil.specs.Values.{decides, junction, and_of, or_of};

use plexil::Worked;

// A side that is d decides; else the other does.
fn decided(d: bool, side: bool, other: Worked) -> Worked
    ensures { result ≡ decides d side other }
{
    if side == d { Worked::Bool(d) } else { other }
}

// AND, which False decides, and OR, which True decides.
fn joined(d: bool, a: Worked, b: Worked) -> Worked
    ensures { result ≡ junction d a b }
{
    match (a, b) {
        (Worked::Unknown, Worked::Unknown) => Worked::Unknown,
        (Worked::Unknown, Worked::Bool(y)) => decided(d, y, Worked::Unknown),
        (Worked::Bool(x), Worked::Unknown | Worked::Bool(_)) => decided(d, x, b),
        _ => Worked::Clash,
    }
}

// "AND is False if either side is False, True if both are True, else Unknown."
pub fn and_of(a: Worked, b: Worked) -> Worked
    ensures { result ≡ and_of a b }
{
    joined(false, a, b)
}

// "OR is the same with True and False exchanged."
pub fn or_of(a: Worked, b: Worked) -> Worked
    ensures { result ≡ or_of a b }
{
    joined(true, a, b)
}
