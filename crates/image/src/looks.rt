// "Lookup, 2 bytes": its fields by the lookup's number.
ghost use Rattle.std.specs.Prelude.{◌≡◌, ◌<◌};
ghost use Rattle.plexil.specs.Image.{look_record_at, look_kind, look_spare};

use super::bytes::byte_at;
use super::sections::looks_at;

fn look_record_at(image: &[u8], l: u16) -> u32
    ensures value { result ≡ look_record_at image.now l }
    ensures upper_bound { result < 4000000 }
{
    looks_at(image) + 2 * (l as u32)
}

pub fn look_kind(image: &[u8], l: u16) -> u8
    ensures { result ≡ look_kind image.now l }
{
    byte_at(image, look_record_at(image, l))
}

pub fn look_spare(image: &[u8], l: u16) -> u8
    ensures { result ≡ look_spare image.now l }
{
    byte_at(image, look_record_at(image, l) + 1)
}
