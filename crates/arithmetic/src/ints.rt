// "Int sum, difference or product outside the range is Unknown".
ghost use Rattle.std.specs.Prelude.{◌≡◌, ◌+ℤ◌, ◌-ℤ◌, ◌*ℤ◌};
ghost use Rattle.plexil.specs.Values.{int_in};

use plexil::Worked;

pub fn add_int(x: i64, y: i64) -> Worked
    ensures { result ≡ int_in (x +ℤ y) }
{
    x.checked_add(y).map_or(Worked::Unknown, Worked::Int)
}

pub fn sub_int(x: i64, y: i64) -> Worked
    ensures { result ≡ int_in (x -ℤ y) }
{
    x.checked_sub(y).map_or(Worked::Unknown, Worked::Int)
}

pub fn mul_int(x: i64, y: i64) -> Worked
    ensures { result ≡ int_in (x *ℤ y) }
{
    x.checked_mul(y).map_or(Worked::Unknown, Worked::Int)
}
