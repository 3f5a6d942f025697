// Rule 9: the fields of an entry by the operands that it takes.
// reads and asks are two, as the definitions have them: no plainer as one with four bounds, since reads wants b = 0 and asks b below n.
ghost use Rattle.std.specs.Prelude.{◌≡◌};
ghost use Rattle.plexil.specs.Records.{operand, reads, asks, takes};

// "Operand entries have lower numbers than their own entry"; entry a has the kind.
pub fn operand(image: &[u8], e: u16, a: u16, kind: u8) -> bool
    ensures { result ≡ operand image.now e a kind }
{
    a < e && image::result_kind(image, a) == kind
}

// A leaf of the kind that reads entry a of n.
pub fn reads(image: &[u8], e: u16, n: u16, kind: u8) -> bool
    ensures { result ≡ reads image.now e n kind }
{
    image::operand_a(image, e) < n
        && image::operand_b(image, e) == 0
        && image::result_kind(image, e) == kind
        && image::constant(image, e) == 0
}

// "In 3 to 5, b is a code listed below": below n.
pub fn asks(image: &[u8], e: u16, n: u16) -> bool
    ensures { result ≡ asks image.now e n }
{
    image::operand_a(image, e) < image::node_count(image)
        && image::operand_b(image, e) < n
        && image::result_kind(image, e) == 0
        && image::constant(image, e) == 0
}

// Both operands of the kind, the entry itself of kind r.
pub fn takes(image: &[u8], e: u16, kind: u8, r: u8) -> bool
    ensures { result ≡ takes image.now e kind r }
{
    operand(image, e, image::operand_a(image, e), kind)
        && operand(image, e, image::operand_b(image, e), kind)
        && image::result_kind(image, e) == r
        && image::constant(image, e) == 0
}
