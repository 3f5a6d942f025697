// "23 Entry: form, spare, index, value or non-command node wrong"
ghost use Rattle.std.specs.Prelude.{◌≡◌, not};
ghost use Rattle.plexil.specs.Lists.{first};
ghost use Rattle.plexil.specs.Macro.{entry_count, lookup_value, lookup_unknown, returned, form, form_of, good_form, good_entry};
ghost use Rattle.plexil.specs.Searches.{found_of};

use super::entries::{entry_bits, entry_form, entry_spare, index};
use super::shape::entry_count;
use plexil::first;

// "0 lookup value", "value 64 (as a constant; ..)"
fn good_value(image: &[u8], event: &[u8], k: u16) -> bool
    ensures { result ≡ good_form image.now event.now k lookup_value }
{
    let l = index(event, k);
    l < image::look_count(image)
        && values::good_bits(image::look_kind(image, l), entry_bits(event, k))
}

// "1 lookup Unknown", "0 unless form 0"
fn good_unknown(image: &[u8], event: &[u8], k: u16) -> bool
    ensures { result ≡ good_form image.now event.now k lookup_unknown }
{
    index(event, k) < image::look_count(image) && entry_bits(event, k) == 0
}

// "2 command returned", "0 unless form 0"
fn good_return(image: &[u8], event: &[u8], k: u16) -> bool
    ensures { result ≡ good_form image.now event.now k returned }
{
    let i = index(event, k);
    i < image::node_count(image) && image::node_type(image, i) == 1 && entry_bits(event, k) == 0
}

fn good_form(image: &[u8], event: &[u8], k: u16) -> bool
    ensures { result ≡ good_form image.now event.now k (form_of (form event.now k)) }
{
    match entry_form(event, k) {
        0 => good_value(image, event, k),
        1 => good_unknown(image, event, k),
        2 => good_return(image, event, k),
        _ => false,
    }
}

fn good_entry(image: &[u8], event: &[u8], k: u16) -> bool
    ensures { result ≡ good_entry image.now event.now k }
{
    entry_spare(event, k) == 0 && good_form(image, event, k)
}

pub(crate) fn first_wrong(image: &[u8], event: &[u8]) -> Option<u16>
    ensures { found_of result ≡ first (entry_count event.now) (λ k. not (good_entry image.now event.now k)) }
{
    first(entry_count(event), |k| !good_entry(image, event, k))
}
