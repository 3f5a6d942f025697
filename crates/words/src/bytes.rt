// Two runs of bytes, compared.
ghost use Rattle.std.specs.Prelude.{◌≡◌};
ghost use Rattle.grammar.specs.Leads as Leads;

// Byte for byte the same.
pub fn same(a: &[u8], b: &[u8]) -> bool
    ensures { result ≡ Leads.same a.now b.now }
{
    a == b
}
