// "Expression, 16 bytes": its fields by the entry's number.
ghost use Rattle.std.specs.Prelude.{◌≡◌, ◌<◌};
ghost use Rattle.plexil.specs.Image.{expr_at, operator, result_kind, operand_a, operand_b, expr_spare, constant};

use super::bytes::{byte_at, le16, le64};
use super::sections::exprs_at;

fn expr_at(image: &[u8], e: u16) -> u32
    ensures value { result ≡ expr_at image.now e }
    ensures upper_bound { result < 4000000 }
{
    exprs_at(image) + 16 * (e as u32)
}

pub fn operator(image: &[u8], e: u16) -> u8
    ensures { result ≡ operator image.now e }
{
    byte_at(image, expr_at(image, e))
}

pub fn result_kind(image: &[u8], e: u16) -> u8
    ensures { result ≡ result_kind image.now e }
{
    byte_at(image, expr_at(image, e) + 1)
}

pub fn operand_a(image: &[u8], e: u16) -> u16
    ensures { result ≡ operand_a image.now e }
{
    le16(image, expr_at(image, e) + 2)
}

pub fn operand_b(image: &[u8], e: u16) -> u16
    ensures { result ≡ operand_b image.now e }
{
    le16(image, expr_at(image, e) + 4)
}

pub fn expr_spare(image: &[u8], e: u16) -> u16
    ensures { result ≡ expr_spare image.now e }
{
    le16(image, expr_at(image, e) + 6)
}

pub fn constant(image: &[u8], e: u16) -> u64
    ensures { result ≡ constant image.now e }
{
    le64(image, expr_at(image, e) + 8)
}
