// "an infinite or NaN result is Unknown"
ghost use Rattle.std.specs.Prelude.{◌≡◌};
ghost use Rattle.plexil.specs.Values.{finite, real_in};

use plexil::Worked;

pub fn is_finite(x: f64) -> bool
    ensures { result ≡ finite x }
{
    x.is_finite()
}

pub fn real_in(x: f64) -> Worked
    ensures { result ≡ real_in x }
{
    if is_finite(x) {
        Worked::Real(x)
    } else {
        Worked::Unknown
    }
}
