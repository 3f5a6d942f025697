// "Header, ten 16-bit numbers", and where the sections stand that follow it "in that order with no gap".
ghost use Rattle.std.specs.Prelude.{◌≡◌};
ghost use Rattle.plexil.specs.Image.{header, edition, node_count, expr_count, var_count, look_count, exprs_at, vars_at, looks_at, end_at};

use super::bytes::le16;

// Number k of the header, from 0.
pub fn header(image: &[u8], k: u16) -> u16
    ensures { result ≡ header image.now k }
{
    le16(image, 2 * (k as u32))
}

pub fn edition(image: &[u8]) -> u16
    ensures { result ≡ edition image.now }
{
    header(image, 0)
}

pub fn node_count(image: &[u8]) -> u16
    ensures { result ≡ node_count image.now }
{
    header(image, 1)
}

pub fn expr_count(image: &[u8]) -> u16
    ensures { result ≡ expr_count image.now }
{
    header(image, 2)
}

pub fn var_count(image: &[u8]) -> u16
    ensures { result ≡ var_count image.now }
{
    header(image, 3)
}

pub fn look_count(image: &[u8]) -> u16
    ensures { result ≡ look_count image.now }
{
    header(image, 4)
}

pub fn exprs_at(image: &[u8]) -> u32
    ensures { result ≡ exprs_at image.now }
{
    20 + 24 * (node_count(image) as u32)
}

pub fn vars_at(image: &[u8]) -> u32
    ensures { result ≡ vars_at image.now }
{
    exprs_at(image) + 16 * (expr_count(image) as u32)
}

pub fn looks_at(image: &[u8]) -> u32
    ensures { result ≡ looks_at image.now }
{
    vars_at(image) + 16 * (var_count(image) as u32)
}

pub fn end_at(image: &[u8]) -> u32
    ensures { result ≡ end_at image.now }
{
    looks_at(image) + 2 * (look_count(image) as u32)
}
