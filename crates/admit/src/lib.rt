// The check of a plan image: the lowest broken of the rules 1 to 12, with the lowest record that breaks it.
// Node types, kinds, operators and 65535 are numbers: what may not change, image's public functions answer the fields, as the definitions of Scope do.
// An image and a record's number are two parameters, as in the definitions: no plainer as a struct of the two, which each clause would name by its fields.
#![tactic(auto, unfolding(plexil::specs::Lists::opened, plexil::specs::Check::opened, plexil::specs::Records::is_assignment, plexil::specs::Scope::given_pass, plexil::specs::Scope::if_assignment, plexil::specs::Scope::good_kinds, plexil::specs::Scope::good_reach, plexil::specs::Scope::in_scope, plexil::specs::Replies::checked_by, plexil::specs::Replies::check_reply))]

mod depth;
mod kinds;
mod numbers;
mod owners;
mod reach;
mod rules;

ghost use Rattle.std.specs.Prelude.{◌≡◌};
ghost use Rattle.plexil.specs.Replies.{counts_of, checked_by};
ghost use Rattle.plexil.specs.ReplyPromises.{CheckPermits};

pub use numbers::rule_number;
use plexil::{Checked, Counts, Verdict};

// counts and checked as a From: no plainer, Counts and Checked are types of plexil, which does not know an image's fields.
fn counts(image: &[u8]) -> Counts
    ensures { result ≡ counts_of image.now }
{
    Counts {
        nodes: image::node_count(image),
        exprs: image::expr_count(image),
        vars: image::var_count(image),
        looks: image::look_count(image),
    }
}

fn checked(image: &[u8], verdict: Verdict) -> Checked
    ensures { result ≡ checked_by verdict image.now }
{
    let counts = match verdict {
        Verdict::Admitted => counts(image),
        Verdict::Refused(_, _) => Counts {
            nodes: 0,
            exprs: 0,
            vars: 0,
            looks: 0,
        },
    };
    Checked { verdict, counts }
}

// The verdict with the checked counts, all 0 where the image is refused.
pub fn check(image: &[u8]) -> Checked
    ensures { CheckPermits image.now result }
{
    checked(image, rules::verdict(image))
}
