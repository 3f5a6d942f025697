// Rule 9: each expression entry by its operator.
ghost use Rattle.std.specs.Prelude.{◌≡◌, [], ◌∷◌};
ghost use Rattle.plexil.specs.declared.Rule.TheVariants as rule;
ghost use Rattle.plexil.specs.Lists.{every};
ghost use Rattle.plexil.specs.Expressions.{constant_op, not_op, operator_at};
ghost use Rattle.plexil.specs.Records.{takes, kind_of_a, is_number, good_leaf, good_operator, good_expression};
ghost use Rattle.plexil.specs.Searches.{found_of};
ghost use Rattle.records.specs.Broken.{lowest_broken};

use crate::operands::{asks, operand, reads, takes};
use crate::variables::good_constant;
use plexil::first;

// "0 constant (b = 1 known, b = 0 Unknown with constant 0)"
fn good_constant_entry(image: &[u8], e: u16) -> bool
    ensures { result ≡ good_leaf constant_op image.now e }
{
    let known = image::operand_b(image, e);
    image::operand_a(image, e) == 0
        && good_constant(
            image::result_kind(image, e),
            known,
            image::constant(image, e),
        )
}

// "6 NOT a"
fn good_not(image: &[u8], e: u16) -> bool
    ensures { result ≡ good_operator not_op image.now e }
{
    operand(image, e, image::operand_a(image, e), 0)
        && image::operand_b(image, e) == 0
        && image::result_kind(image, e) == 0
        && image::constant(image, e) == 0
}

// "10 to 14 take two Int or two Real": of that kind, the entry itself of kind r.
fn takes_numbers(image: &[u8], e: u16, r: u8) -> bool
    ensures { result ≡ every (is_number (kind_of_a image.now e) ∷ takes image.now e (kind_of_a image.now e) r ∷ []) }
{
    let kind = image::result_kind(image, image::operand_a(image, e));
    kind != 0 && takes(image, e, kind, r)
}

#[tactic(auto, unfolding(plexil::specs::Lists::opened, plexil::specs::Expressions::opened, plexil::specs::Records::opened))]
fn good_operator(image: &[u8], e: u16) -> bool
    ensures { result ≡ good_operator (operator_at image.now e) image.now e }
{
    let a = image::operand_a(image, e);
    match image::operator(image, e) {
        0 => good_constant_entry(image, e),
        1 => reads(image, e, image::var_count(image), image::var_kind(image, a)),
        2 => reads(
            image,
            e,
            image::look_count(image),
            image::look_kind(image, a),
        ),
        3 => asks(image, e, 7),
        4 => asks(image, e, 4),
        5 => asks(image, e, 6),
        6 => good_not(image, e),
        7 | 8 => takes(image, e, 0, 0),
        9 => takes(image, e, image::result_kind(image, a), 0),
        10 | 11 => takes_numbers(image, e, 0),
        12..=14 => takes_numbers(image, e, image::result_kind(image, a)),
        _ => false,
    }
}

fn good_expression(image: &[u8], e: u16) -> bool
    ensures { result ≡ good_expression image.now e }
{
    image::expr_spare(image, e) == 0 && good_operator(image, e)
}

// "9 Expression: operator, spare, operand, kind or constant wrong"
pub fn broken_expression(image: &[u8]) -> Option<u16>
    ensures { found_of result ≡ lowest_broken rule.Expression image.now }
{
    first(image::expr_count(image), |e| !good_expression(image, e))
}
