// Rules 1 to 4: the header's numbers, and the image's own length. Each is about record 0 alone.
ghost use Rattle.std.specs.Prelude.{◌≡◌};
ghost use Rattle.plexil.specs.declared.Rule.TheVariants as rule;
ghost use Rattle.plexil.specs.Searches.{found_of};
ghost use Rattle.plexil.specs.Records.{good_count, good_layout};
ghost use Rattle.records.specs.Broken.{lowest_broken};

use plexil::first;

// "1 Short: image under 20 bytes"
pub fn broken_short(image: &[u8]) -> Option<u16>
    ensures { found_of result ≡ lowest_broken rule.Short image.now }
{
    first(1, |_| image.len() < 20)
}

// "2 Edition: not 1"
pub fn broken_edition(image: &[u8]) -> Option<u16>
    ensures { found_of result ≡ lowest_broken rule.Edition image.now }
{
    first(1, |_| image::edition(image) != 1)
}

// "counts of nodes N (1..256), expressions E (0..2048), variables V (0..128), lookups L (0..64)"
fn good_count(image: &[u8]) -> bool
    ensures { result ≡ good_count image.now }
{
    0 < image::node_count(image)
        && image::node_count(image) <= 256
        && image::expr_count(image) <= 2048
        && image::var_count(image) <= 128
        && image::look_count(image) <= 64
}

// "3 Count: outside the limits"
pub fn broken_count(image: &[u8]) -> Option<u16>
    ensures { found_of result ≡ lowest_broken rule.Count image.now }
{
    first(1, |_| !good_count(image))
}

// "then the offsets of these four sections, then total length"
fn good_layout(image: &[u8]) -> bool
    ensures { result ≡ good_layout image.now }
{
    let end = image::end_at(image);
    image::header(image, 5) == 20
        && image::header(image, 6) as u32 == image::exprs_at(image)
        && image::header(image, 7) as u32 == image::vars_at(image)
        && image::header(image, 8) as u32 == image::looks_at(image)
        && image::header(image, 9) as u32 == end
        && image.len() == end as usize
}

// "4 Layout: an offset, the total length or the image's own length differs"
pub fn broken_layout(image: &[u8]) -> Option<u16>
    ensures { found_of result ≡ lowest_broken rule.Layout image.now }
{
    first(1, |_| !good_layout(image))
}
