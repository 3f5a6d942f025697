// Rule 12: what a node's expressions reach, by the table of what each entry asks; the walks go up to node 0.
ghost use Rattle.std.specs.Prelude.{◌≡◌, [], ◌∷◌, eqb, ◌<◌};
ghost use Rattle.plexil.specs.declared.Rule.TheVariants as rule;
ghost use Rattle.plexil.specs.Lists.{every, some};
ghost use Rattle.plexil.specs.Image.{default, node_count, expr_count, condition_field, value_field, what};
ghost use Rattle.plexil.specs.Scope.{is_above, in_scope, tree_in_scope, given_pass, if_assignment, good_reach};
ghost use Rattle.plexil.specs.Searches.{found_of};
ghost use Rattle.records.specs.Broken.{lowest_broken};
ghost use Rattle.admit.specs.Owners.{Ordered, Owned};

use super::owners::{allowed, asked};
use plexil::{Condition, first};
use records::each_condition;

// The owner is node i or above it; the walk goes up at most `left` nodes.
pub(crate) fn is_above(image: &[u8], left: u32, owner: u16, mut i: u16) -> bool
    ensures { result ≡ is_above image.now left owner i }
{
    for _ in 0..left {
        if owner == i {
            return true;
        }
        if i == 0 {
            return false;
        }
        i = image::parent(image, i);
    }
    false
}

// Variable v's owner is node i or above it.
fn in_scope(image: &[u8], i: u16, v: u16) -> bool
    ensures { result ≡ in_scope image.now i v }
{
    is_above(image, i as u32 + 1, image::owner(image, v), i)
}

// An image that has passed the rules before this one, with the table of what every entry asks.
#[derive(Clone, Copy)]
struct Reach<'a> {
    image: &'a [u8],
    owners: &'a [u16; 2048],
    ghost ordered: { Ordered image.now },
    ghost owned: { Owned image.now (expr_count image.now) owners.now },
}

impl<'a> Reach<'a> {
    // Node i may read each variable in the tree at e.
    fn may_read(&self, i: u16, e: u16) -> bool
        requires i_bound { i < node_count self.now.image.now }
        requires e_bound { e < expr_count self.now.image.now }
        ensures { result ≡ tree_in_scope self.now.image.now i 12 e }
    {
        allowed(self.image, self.owners[e as usize], i)
    }

    fn condition_in_scope(&self, i: u16, c: Condition) -> bool
        requires { i < node_count self.now.image.now }
        ensures { result ≡ some (eqb (condition_field self.now.image.now i c) default ∷ tree_in_scope self.now.image.now i 12 (condition_field self.now.image.now i c) ∷ []) }
    {
        let e = image::condition_field(self.image, i, c);
        e == 65535 || self.may_read(i, e)
    }

    fn conditions_in_scope(&self, i: u16) -> bool
        requires { i < node_count self.now.image.now }
        ensures { result ≡ given_pass self.now.image.now i (tree_in_scope self.now.image.now i 12) }
    {
        each_condition(|c| self.condition_in_scope(i, c))
    }

    fn assignment_in_scope(&self, i: u16) -> bool
        requires { i < node_count self.now.image.now }
        ensures { result ≡ if_assignment self.now.image.now i (every (tree_in_scope self.now.image.now i 12 (value_field self.now.image.now i) ∷ in_scope self.now.image.now i (what self.now.image.now i) ∷ [])) }
    {
        if image::node_type(self.image, i) != 2 {
            return true;
        }
        let e = image::value_field(self.image, i);
        self.may_read(i, e) && in_scope(self.image, i, image::what(self.image, i))
    }

    fn good(&self, i: u16) -> bool
        requires { i < node_count self.now.image.now }
        ensures { result ≡ good_reach self.now.image.now i }
    {
        self.conditions_in_scope(i) && self.assignment_in_scope(i)
    }
}

// What every entry asks, into a table that is lent: handed out it would stand on the stack twice.
fn all_owners(image: &[u8], owners: &mut [u16; 2048])
    requires { Ordered image.now }
    ensures { Owned image.now (expr_count image.now) owners.new }
{
    for e in 0..image::expr_count(image) {
        let o = asked(image, owners, e);
        owners[e as usize] = o;
    }
}

// "12 Reach: a node reads or assigns a variable whose owner is neither it nor above it"
pub(crate) fn broken_reach(image: &[u8]) -> Option<u16>
    requires { Ordered image.now }
    ensures { found_of result ≡ lowest_broken rule.Reach image.now }
{
    let mut owners = [0u16; 2048];
    all_owners(image, &mut owners);
    let reach = Reach {
        image,
        owners: &owners,
    };
    first(image::node_count(image), |i| !reach.good(i))
}
