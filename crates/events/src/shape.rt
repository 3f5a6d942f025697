// "Serial 32, count 16 (0..128), spare 16, then entries of 12 bytes"
ghost use Rattle.std.specs.Prelude.{◌≡◌};
ghost use Rattle.plexil.specs.Macro.{event_serial, entry_count, good_shape};

pub(crate) fn event_serial(event: &[u8]) -> u32
    ensures { result ≡ event_serial event.now }
{
    image::le32(event, 0)
}

pub(crate) fn entry_count(event: &[u8]) -> u16
    ensures { result ≡ entry_count event.now }
{
    image::le16(event, 4)
}

// "21 Shape: event length, count or spare wrong"
pub(crate) fn good_shape(event: &[u8]) -> bool
    ensures { result ≡ good_shape event.now }
{
    let n = entry_count(event);
    n <= 128 && image::le16(event, 6) == 0 && event.len() == 8 + 12 * (n as usize)
}
