// The refusal numbers of the rules of a plan image. What may not change: rule_number is a public function; a From<Rule> beside it would be a second one.
ghost use Rattle.std.specs.Prelude.{◌≡◌};
ghost use Rattle.plexil.specs.Check.{rule_number};

use plexil::Rule;

pub fn rule_number(rule: Rule) -> u32
    ensures { result ≡ rule_number rule }
{
    match rule {
        Rule::Short => 1,
        Rule::Edition => 2,
        Rule::Count => 3,
        Rule::Layout => 4,
        Rule::Tree => 5,
        Rule::Node => 6,
        Rule::Variable => 7,
        Rule::Lookup => 8,
        Rule::Expression => 9,
        Rule::Deep => 10,
        Rule::Kind => 11,
        Rule::Reach => 12,
    }
}
