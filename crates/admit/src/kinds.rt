// Rule 11: the kinds of conditions and values.
// bool_condition and good_value begin as condition_in_scope and assignment_in_scope do: no plainer as one function, which needs a closure with its clause
// to share one comparison.
ghost use Rattle.std.specs.Prelude.{◌≡◌, [], ◌∷◌, eqb};
ghost use Rattle.plexil.specs.declared.Rule.TheVariants as rule;
ghost use Rattle.plexil.specs.Lists.{some};
ghost use Rattle.plexil.specs.Image.{default, condition_field, value_field, what, result_kind, var_kind};
ghost use Rattle.plexil.specs.Scope.{given_pass, if_assignment, good_kinds};
ghost use Rattle.plexil.specs.Searches.{found_of};
ghost use Rattle.records.specs.Broken.{lowest_broken};

use plexil::{Condition, first};
use records::each_condition;

fn bool_condition(image: &[u8], i: u16, c: Condition) -> bool
    ensures { result ≡ some (eqb (condition_field image.now i c) default ∷ eqb (result_kind image.now (condition_field image.now i c)) 0 ∷ []) }
{
    let e = image::condition_field(image, i, c);
    e == 65535 || image::result_kind(image, e) == 0
}

fn bool_conditions(image: &[u8], i: u16) -> bool
    ensures { result ≡ given_pass image.now i (λ e. eqb (result_kind image.now e) 0) }
{
    each_condition(|c| bool_condition(image, i, c))
}

fn good_value(image: &[u8], i: u16) -> bool
    ensures { result ≡ if_assignment image.now i (eqb (result_kind image.now (value_field image.now i)) (var_kind image.now (what image.now i))) }
{
    image::node_type(image, i) != 2
        || image::result_kind(image, image::value_field(image, i))
            == image::var_kind(image, image::what(image, i))
}

fn good_kinds(image: &[u8], i: u16) -> bool
    ensures { result ≡ good_kinds image.now i }
{
    bool_conditions(image, i) && good_value(image, i)
}

// "11 Kind: condition not Bool, value kind not the target's"
pub(crate) fn broken_kind(image: &[u8]) -> Option<u16>
    ensures { found_of result ≡ lowest_broken rule.Kind image.now }
{
    first(image::node_count(image), |i| !good_kinds(image, i))
}
