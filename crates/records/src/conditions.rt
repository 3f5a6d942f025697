// "Skip, Start, Pre, Inv, End, Post, Repeat": one answer for each condition, and one test of each.
ghost use Rattle.std.specs.Prelude.{◌≡◌, Bool, [], ◌∷◌};
ghost use Rattle.plexil.specs.Lists.{every};
ghost use Rattle.plexil.specs.declared.Condition.{Condition};
ghost use Rattle.plexil.specs.Records.{all_conditions};

use plexil::Condition;

pub fn all_conditions(
    skip: bool,
    start: bool,
    pre: bool,
    inv: bool,
    end: bool,
    post: bool,
    repeat: bool,
) -> bool
    ensures { result ≡ every (skip ∷ start ∷ pre ∷ inv ∷ end ∷ post ∷ repeat ∷ []) }
{
    skip && start && pre && inv && end && post && repeat
}

// The one place that names the seven.
pub fn each_condition<F: Fn(Condition) -> bool>(test: F) -> bool
    requires { (c : Condition) → F.pre test c }
    ensures { (f : Condition → Bool) → ((c : Condition) (r : Bool) → F.post test c r → r ≡ f c) → result ≡ all_conditions f }
{
    all_conditions(
        test(Condition::Skip),
        test(Condition::Start),
        test(Condition::Pre),
        test(Condition::Inv),
        test(Condition::End),
        test(Condition::Post),
        test(Condition::Repeat),
    )
}
