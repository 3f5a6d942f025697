// The operators of two operands, by their number.
ghost use Rattle.std.specs.Prelude.{◌≡◌};
ghost use Rattle.plexil.specs.Expressions.{operator_of};
ghost use Rattle.evaluate.specs.Binary.{join_of};

use plexil::Worked;

// "7 AND; 8 OR; 9 EQ; 10 LT; 11 LE; 12 ADD; 13 SUB; 14 MUL"
#[tactic(auto, using(crate::proofs::Laws::join_none), unfolding(crate::specs::Binary::join_of, plexil::specs::Expressions::opened))]
pub fn join(op: u8, x: Worked, y: Worked) -> Worked
    ensures { result ≡ join_of (operator_of op) x y }
{
    match op {
        7 => values::and_of(x, y),
        8 => values::or_of(x, y),
        9 => values::eq_of(values::pair_of(x, y)),
        10 => values::lt_of(values::pair_of(x, y)),
        11 => values::le_of(values::pair_of(x, y)),
        12 => values::add_of(values::pair_of(x, y)),
        13 => values::sub_of(values::pair_of(x, y)),
        14 => values::mul_of(values::pair_of(x, y)),
        _ => Worked::Clash,
    }
}
