// Rules 5 and 6: the tree of nodes, and each node's own fields.
ghost use Rattle.std.specs.Prelude.{◌≡◌, [], ◌∷◌, eqb, ltb};
ghost use Rattle.plexil.specs.declared.Rule.TheVariants as rule;
ghost use Rattle.plexil.specs.Lists.{every};
ghost use Rattle.plexil.specs.Image.{default, var_count, expr_count, what, value_field};
ghost use Rattle.plexil.specs.Records.{good_parent, good_condition, good_what, good_node, all_conditions};
ghost use Rattle.plexil.specs.Searches.{found_of};
ghost use Rattle.records.specs.Broken.{lowest_broken};

use crate::conditions::each_condition;
use plexil::{Condition, first};

// "Node 0 has parent 65535; any other parent is a list with a lower number"
fn good_parent(image: &[u8], i: u16) -> bool
    ensures { result ≡ good_parent image.now i }
{
    let up = image::parent(image, i);
    if i == 0 {
        return up == 65535;
    }
    up < i && image::node_type(image, up) == 0
}

// "5 Tree: parent wrong"
pub fn broken_tree(image: &[u8]) -> Option<u16>
    ensures { found_of result ≡ lowest_broken rule.Tree image.now }
{
    first(image::node_count(image), |i| !good_parent(image, i))
}

// "expression, or 65535 for default"; admit asks so too, with a test of its own: no plainer as one function with a closure.
fn good_condition(image: &[u8], i: u16, c: Condition) -> bool
    ensures { result ≡ good_condition image.now i c }
{
    let e = image::condition_field(image, i, c);
    e == 65535 || e < image::expr_count(image)
}

// The definition all_conditions stays closed here, as each_condition's own clause has it.
#[tactic(auto)]
fn good_conditions(image: &[u8], i: u16) -> bool
    ensures { result ≡ all_conditions (good_condition image.now i) }
{
    each_condition(|c| good_condition(image, i, c))
}

// good_list, good_command and good_assignment share two fields, and no test of them is the same in all three: no plainer as one.
// "list: 65535", and no value
fn good_list(image: &[u8], i: u16) -> bool
    ensures { result ≡ every (eqb (what image.now i) default ∷ eqb (value_field image.now i) default ∷ []) }
{
    image::what(image, i) == 65535 && image::value_field(image, i) == 65535
}

// "command: command number 0..65534", and no value
fn good_command(image: &[u8], i: u16) -> bool
    ensures { result ≡ every (ltb (what image.now i) default ∷ eqb (value_field image.now i) default ∷ []) }
{
    image::what(image, i) < 65535 && image::value_field(image, i) == 65535
}

// "assignment: variable", and "assignment: expression"
fn good_assignment(image: &[u8], i: u16) -> bool
    ensures { result ≡ every (ltb (what image.now i) (var_count image.now) ∷ ltb (value_field image.now i) (expr_count image.now) ∷ []) }
{
    image::what(image, i) < image::var_count(image)
        && image::value_field(image, i) < image::expr_count(image)
}

// "0 list, 1 command, 2 assignment"
fn good_what(image: &[u8], i: u16) -> bool
    ensures { result ≡ good_what image.now i }
{
    match image::node_type(image, i) {
        0 => good_list(image, i),
        1 => good_command(image, i),
        2 => good_assignment(image, i),
        _ => false,
    }
}

fn good_node(image: &[u8], i: u16) -> bool
    ensures { result ≡ good_node image.now i }
{
    image::node_spare(image, i) == 0 && good_what(image, i) && good_conditions(image, i)
}

// "6 Node: type, spare or field wrong"
pub fn broken_node(image: &[u8]) -> Option<u16>
    ensures { found_of result ≡ lowest_broken rule.Node image.now }
{
    first(image::node_count(image), |i| !good_node(image, i))
}
