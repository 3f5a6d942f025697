// "Node, 24 bytes": its fields by the node's number.
ghost use Rattle.std.specs.Prelude.{◌≡◌, ◌<◌};
ghost use Rattle.plexil.specs.Image.{node_at, parent, node_type, node_spare, priority, condition_at, condition_field, what, value_field};

use super::bytes::{byte_at, le16};
use plexil::Condition;

fn node_at(i: u16) -> u32
    ensures value { result ≡ node_at i }
    ensures upper_bound { result < 4000000 }
{
    20 + 24 * (i as u32)
}

pub fn parent(image: &[u8], i: u16) -> u16
    ensures { result ≡ parent image.now i }
{
    le16(image, node_at(i))
}

pub fn node_type(image: &[u8], i: u16) -> u8
    ensures { result ≡ node_type image.now i }
{
    byte_at(image, node_at(i) + 2)
}

pub fn node_spare(image: &[u8], i: u16) -> u8
    ensures { result ≡ node_spare image.now i }
{
    byte_at(image, node_at(i) + 3)
}

pub fn priority(image: &[u8], i: u16) -> u16
    ensures { result ≡ priority image.now i }
{
    le16(image, node_at(i) + 4)
}

// Where a condition stands in its record.
pub fn condition_at(c: Condition) -> u32
    ensures { result ≡ condition_at c }
{
    match c {
        Condition::Skip => 6,
        Condition::Start => 8,
        Condition::Pre => 10,
        Condition::Inv => 12,
        Condition::End => 14,
        Condition::Post => 16,
        Condition::Repeat => 18,
    }
}

pub fn condition_field(image: &[u8], i: u16, c: Condition) -> u16
    ensures { result ≡ condition_field image.now i c }
{
    le16(image, node_at(i) + condition_at(c))
}

pub fn what(image: &[u8], i: u16) -> u16
    ensures { result ≡ what image.now i }
{
    le16(image, node_at(i) + 20)
}

pub fn value_field(image: &[u8], i: u16) -> u16
    ensures { result ≡ value_field image.now i }
{
    le16(image, node_at(i) + 22)
}
