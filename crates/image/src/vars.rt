// "Variable, 16 bytes": its fields by the variable's number.
ghost use Rattle.std.specs.Prelude.{◌≡◌, ◌<◌};
ghost use Rattle.plexil.specs.Image.{var_record_at, var_kind, var_known, owner, var_spare, initial_bits};

use super::bytes::{byte_at, le16, le32, le64};
use super::sections::vars_at;

fn var_record_at(image: &[u8], v: u16) -> u32
    ensures value { result ≡ var_record_at image.now v }
    ensures upper_bound { result < 4000000 }
{
    vars_at(image) + 16 * (v as u32)
}

pub fn var_kind(image: &[u8], v: u16) -> u8
    ensures { result ≡ var_kind image.now v }
{
    byte_at(image, var_record_at(image, v))
}

pub fn var_known(image: &[u8], v: u16) -> u8
    ensures { result ≡ var_known image.now v }
{
    byte_at(image, var_record_at(image, v) + 1)
}

pub fn owner(image: &[u8], v: u16) -> u16
    ensures { result ≡ owner image.now v }
{
    le16(image, var_record_at(image, v) + 2)
}

pub fn var_spare(image: &[u8], v: u16) -> u32
    ensures { result ≡ var_spare image.now v }
{
    le32(image, var_record_at(image, v) + 4)
}

pub fn initial_bits(image: &[u8], v: u16) -> u64
    ensures { result ≡ initial_bits image.now v }
{
    le64(image, var_record_at(image, v) + 8)
}
