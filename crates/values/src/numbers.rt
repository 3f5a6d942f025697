// LT, LE, ADD, SUB and MUL: "10 to 14 take two Int or two Real".
ghost use Rattle.std.specs.Prelude.{◌≡◌, ℤ, Float};
ghost use Rattle.plexil.specs.Values.{numeric, lt_of, le_of, add_of, sub_of, mul_of};

use arithmetic::{add_int, mul_int, real_in, sub_int};
use plexil::{Pair, Worked};

// What is made of two Int by `ints`, and of two Real by `reals`.
fn numeric<I: Fn(i64, i64) -> Worked, R: Fn(f64, f64) -> Worked>(
    p: Pair,
    ints: I,
    reals: R,
) -> Worked
    requires ints { I.IsAlwaysCallable ints }
    requires reals { R.IsAlwaysCallable reals }
    ensures { (f : ℤ → ℤ → Worked) (g : Float → Float → Worked)
        → ((x y : ℤ) (w : Worked) → I.post ints x y w → w ≡ f x y)
        → ((x y : Float) (w : Worked) → R.post reals x y w → w ≡ g x y)
        → result ≡ numeric f g p }
{
    match p {
        Pair::Unknown => Worked::Unknown,
        Pair::Ints(x, y) => ints(x, y),
        Pair::Reals(x, y) => reals(x, y),
        Pair::Clash | Pair::UnknownBool | Pair::Bools(_, _) => Worked::Clash,
    }
}

pub fn lt_of(p: Pair) -> Worked
    ensures { result ≡ lt_of p }
{
    numeric(p, |x, y| Worked::Bool(x < y), |x, y| Worked::Bool(x < y))
}

pub fn le_of(p: Pair) -> Worked
    ensures { result ≡ le_of p }
{
    numeric(p, |x, y| Worked::Bool(x <= y), |x, y| Worked::Bool(x <= y))
}

// A closure, and not `add_int` by name: a function of another crate that is passed by name got no proof.
pub fn add_of(p: Pair) -> Worked
    ensures { result ≡ add_of p }
{
    numeric(p, |x, y| add_int(x, y), |x, y| real_in(x + y))
}

pub fn sub_of(p: Pair) -> Worked
    ensures { result ≡ sub_of p }
{
    numeric(p, |x, y| sub_int(x, y), |x, y| real_in(x - y))
}

pub fn mul_of(p: Pair) -> Worked
    ensures { result ≡ mul_of p }
{
    numeric(p, |x, y| mul_int(x, y), |x, y| real_in(x * y))
}
