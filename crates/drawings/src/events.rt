// Events whose entries have the value 0, with a serial of 16 bits.
// A form is a number: refusals gives 3, which no form has, to be refused by `Entry`.
use super::write::numbers;

// The value of a lookup: False, since it is 0.
pub const LOOKUP: u32 = 0;

// The return of a command.
pub const RETURN: u32 = 2;

// The same entry n times.
fn event<const BYTES: usize>(serial: u32, n: u32, form: u32, index: u32) -> [u8; BYTES] {
    let mut event = [0u8; BYTES];
    numbers(&mut event, 0, &[serial, 0, n, 0]);
    for k in 0..n {
        numbers(&mut event, 8 + 12 * k as usize, &[form, index]);
    }
    event
}

pub fn single(serial: u32, form: u32, index: u32) -> [u8; 20] {
    event(serial, 1, form, index)
}

// The same entry two times.
pub fn twice(serial: u32, form: u32, index: u32) -> [u8; 32] {
    event(serial, 2, form, index)
}
