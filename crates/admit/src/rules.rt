// The rules in the order of their refusal numbers.
ghost use Rattle.std.specs.Prelude.{◌≡◌, drop};
ghost use Rattle.plexil.specs.declared.Rule.TheVariants as rule;
ghost use Rattle.plexil.specs.Lists.{nowhere};
ghost use Rattle.plexil.specs.Check.{rules, verdict, verdict_on};
ghost use Rattle.records.specs.Broken.{lowest_broken};
ghost use Rattle.admit.specs.Refusals.{kept, verdict_of};

use crate::{depth, kinds, reach};
use plexil::{Rule, Verdict};

// A broken rule refuses the image, with the lowest record that breaks it.
fn kept(rule: Rule, broken: Option<u16>) -> Result<(), Verdict>
    ensures { result ≡ kept rule broken }
{
    match broken {
        None => Ok(()),
        Some(i) => Err(Verdict::Refused(rule, i)),
    }
}

// Rules 5 to 12, once the counts are within their limits.
fn records_kept(image: &[u8]) -> Result<(), Verdict>
    requires { lowest_broken rule.Count image.now ≡ nowhere }
    ensures { verdict_of result ≡ verdict_on (drop 4 rules) image.now }
{
    kept(Rule::Tree, records::broken_tree(image))?;
    kept(Rule::Node, records::broken_node(image))?;
    kept(Rule::Variable, records::broken_variable(image))?;
    kept(Rule::Lookup, records::broken_lookup(image))?;
    kept(Rule::Expression, records::broken_expression(image))?;
    kept(Rule::Deep, depth::broken_deep(image))?;
    kept(Rule::Kind, kinds::broken_kind(image))?;
    kept(Rule::Reach, reach::broken_reach(image))
}

fn rules_kept(image: &[u8]) -> Result<(), Verdict>
    ensures { verdict_of result ≡ verdict image.now }
{
    kept(Rule::Short, records::broken_short(image))?;
    kept(Rule::Edition, records::broken_edition(image))?;
    kept(Rule::Count, records::broken_count(image))?;
    kept(Rule::Layout, records::broken_layout(image))?;
    records_kept(image)
}

// "The lowest broken of 1 to 12 is answered, with the lowest record number that breaks it"
pub(crate) fn verdict(image: &[u8]) -> Verdict
    ensures { result ≡ verdict image.now }
{
    match rules_kept(image) {
        Ok(()) => Verdict::Admitted,
        Err(refused) => refused,
    }
}
