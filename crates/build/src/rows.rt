// Tables by the number of what is said.
ghost use Rattle.std.specs.Prelude.{◌≡◌, ◌-◌, ◌≤◌, ◌<◌, get_or};

// The row of what is said, in a table that begins with the number `first`; 0 where it has none.
pub fn row(table: &[u8], first: u8, says: u8) -> u8
    ensures inside { first ≤ says → result ≡ get_or table.now (says - first) 0 }
    ensures before { says < first → result ≡ 0 }
{
    if says < first {
        return 0;
    }
    table.get((says - first) as usize).copied().unwrap_or(0)
}
