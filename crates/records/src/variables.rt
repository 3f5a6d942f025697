// Rules 7 and 8: variables and lookups.
ghost use Rattle.std.specs.Prelude.{◌≡◌};
ghost use Rattle.plexil.specs.declared.Rule.TheVariants as rule;
ghost use Rattle.plexil.specs.Searches.{found_of};
ghost use Rattle.plexil.specs.Records.{good_constant, good_variable, good_lookup};
ghost use Rattle.records.specs.Broken.{lowest_broken};

use plexil::first;

// A constant is known with these bits, or Unknown with bits 0.
pub fn good_constant(kind: u8, known: u16, bits: u64) -> bool
    ensures { result ≡ good_constant kind known bits }
{
    match known {
        0 => kind < 3 && bits == 0,
        1 => values::good_bits(kind, bits),
        _ => false,
    }
}

fn good_variable(image: &[u8], v: u16) -> bool
    ensures { result ≡ good_variable image.now v }
{
    let known = image::var_known(image, v) as u16;
    good_constant(
        image::var_kind(image, v),
        known,
        image::initial_bits(image, v),
    ) && image::owner(image, v) < image::node_count(image)
        && image::var_spare(image, v) == 0
}

// "7 Variable: record wrong, owner not below N, real not finite"
pub fn broken_variable(image: &[u8]) -> Option<u16>
    ensures { found_of result ≡ lowest_broken rule.Variable image.now }
{
    first(image::var_count(image), |v| !good_variable(image, v))
}

fn good_lookup(image: &[u8], l: u16) -> bool
    ensures { result ≡ good_lookup image.now l }
{
    image::look_kind(image, l) < 3 && image::look_spare(image, l) == 0
}

// "8 Lookup"
pub fn broken_lookup(image: &[u8]) -> Option<u16>
    ensures { found_of result ≡ lowest_broken rule.Lookup image.now }
{
    first(image::look_count(image), |l| !good_lookup(image, l))
}
