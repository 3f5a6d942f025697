// "form 8 (0 lookup value, 1 lookup Unknown, 2 command returned), spare 8, index 16, value 64": the fields of entry k.
// The form stays a number, which is no plainer as an enum: names_same and not_awaited compare it, and an entry of no form is entered as a mark.
// Entry k of an event is two parameters, as in the definitions: a struct of the two would stand in each clause by its fields.
// Each field has a reader of its own, one line, since the definitions name each; entry_at has the 8 and the 12 of the definition entry_at.
ghost use Rattle.std.specs.Prelude.{◌≡◌, ◌<◌};
ghost use Rattle.plexil.specs.Macro.{entry_at, form, entry_spare, index, entry_bits};

fn entry_at(k: u16) -> u32
    ensures value { result ≡ entry_at k }
    ensures upper_bound { result < 4000000 }
{
    8 + 12 * (k as u32)
}

pub(crate) fn entry_form(event: &[u8], k: u16) -> u8
    ensures { result ≡ form event.now k }
{
    image::byte_at(event, entry_at(k))
}

pub(crate) fn entry_spare(event: &[u8], k: u16) -> u8
    ensures { result ≡ entry_spare event.now k }
{
    image::byte_at(event, entry_at(k) + 1)
}

pub(crate) fn index(event: &[u8], k: u16) -> u16
    ensures { result ≡ index event.now k }
{
    image::le16(event, entry_at(k) + 2)
}

pub(crate) fn entry_bits(event: &[u8], k: u16) -> u64
    ensures { result ≡ entry_bits event.now k }
{
    image::le64(event, entry_at(k) + 4)
}
