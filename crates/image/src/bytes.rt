// Little-endian numbers at a place of the image; past the end every byte is 0. A place is a u32, so that no index wraps.
// One reader of N bytes over std's `from_le_bytes` was tried and proved: with the bytes past the end inline it reads 16 bits a third slower (1.3 for 1.0 ns), and with them apart a call takes 40,680 bytes of stack, above the project's 32,768.
ghost use Rattle.std.specs.Prelude.{◌≡◌, ◌+◌, ◌*◌, ◌^◌, ◌<◌, length};
ghost use Rattle.plexil.specs.Bytes.{byte_at, le16, le32, le64};

pub fn byte_at(b: &[u8], at: u32) -> u8
    ensures { result ≡ byte_at b.now at }
{
    byte(b, at as usize)
}

pub fn le16(b: &[u8], at: u32) -> u16
    ensures { result ≡ le16 b.now at }
{
    two(b, at as usize)
}

pub fn le32(b: &[u8], at: u32) -> u32
    ensures { result ≡ le32 b.now at }
{
    four(b, at as usize)
}

pub fn le64(b: &[u8], at: u32) -> u64
    ensures { result ≡ le64 b.now at }
{
    let k = at as usize;
    if k + 7 < b.len() {
        return join64(four_within(b, k), four_within(b, k + 4));
    }
    join64(four(b, k), four(b, k + 4))
}

// The low half first.
fn join16(low: u8, high: u8) -> u16
    ensures { result ≡ low + 256 * high }
{
    low as u16 + 256 * (high as u16)
}

fn join32(low: u16, high: u16) -> u32
    ensures { result ≡ low + 65536 * high }
{
    low as u32 + 65536 * (high as u32)
}

fn join64(low: u32, high: u32) -> u64
    ensures { result ≡ low + 4294967296 * high }
{
    low as u64 + 4294967296 * (high as u64)
}

fn byte(b: &[u8], k: usize) -> u8
    ensures { result ≡ byte_at b.now k }
{
    if k < b.len() { b[k] } else { 0 }
}

fn two(b: &[u8], k: usize) -> u16
    requires { k + 1 < 2 ^ 64 }
    ensures { result ≡ le16 b.now k }
{
    if k + 1 < b.len() {
        two_within(b, k)
    } else {
        byte(b, k) as u16
    }
}

fn four(b: &[u8], k: usize) -> u32
    requires { k + 3 < 2 ^ 64 }
    ensures { result ≡ le32 b.now k }
{
    join32(two(b, k), two(b, k + 2))
}

// The same of bytes that the image has: one test for the whole number.
fn byte_within(b: &[u8], k: usize) -> u8
    requires { k < length b.now }
    ensures { result ≡ byte_at b.now k }
{
    b[k]
}

fn two_within(b: &[u8], k: usize) -> u16
    requires { k + 1 < length b.now }
    ensures { result ≡ le16 b.now k }
{
    let low = byte_within(b, k);
    let high = byte_within(b, k + 1);
    join16(low, high)
}

fn four_within(b: &[u8], k: usize) -> u32
    requires { k + 3 < length b.now }
    ensures { result ≡ le32 b.now k }
{
    join32(two_within(b, k), two_within(b, k + 2))
}
