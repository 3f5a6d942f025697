// NOT, and what a rule asks of a condition.
ghost use Rattle.std.specs.Prelude.{◌≡◌};
ghost use Rattle.plexil.specs.Values.{not_of, says};

use plexil::Worked;

// "NOT Unknown is Unknown"
pub fn not_of(a: Worked) -> Worked
    ensures { result ≡ not_of a }
{
    match a {
        Worked::Unknown => Worked::Unknown,
        Worked::Bool(b) => Worked::Bool(!b),
        _ => Worked::Clash,
    }
}

// v says d: a condition is True, or is False
pub fn says(d: bool, v: Worked) -> bool
    ensures { result ≡ says d v }
{
    match v {
        Worked::Bool(b) => b == d,
        _ => false,
    }
}
