// Which entries a change touches: what an entry reads has its flag up.
ghost use Rattle.std.specs.Prelude.{◌≡◌, ◌<◌};
ghost use Rattle.plexil.specs.Image.{exprs_at};
ghost use Rattle.answers.specs.Changes.{up, touched};

pub fn is_up(flags: &[u8], k: usize) -> bool
    ensures { result ≡ up flags.now k }
{
    if k < flags.len() {
        return flags[k] != 0;
    }
    false
}

// Entry e, whose section stands at base. The flags of variables stand from 256 on, those of lookups from 384 on.
pub fn is_touched(image: &[u8], base: u32, e: u16, altered: &[u8], changed: &[u8]) -> bool
    requires { (base ≡ exprs_at image.now) × (base < 2000000) }
    ensures { result ≡ touched image.now altered.now changed.now e }
{
    let at = base + 16 * (e as u32);
    let a = image::le16(image, at + 2) as usize;
    let op = image::byte_at(image, at);
    match op {
        0 => false,
        1 => is_up(altered, 256 + a),
        2 => is_up(altered, 384 + a),
        3 => is_up(altered, a),
        4 => is_up(altered, a),
        5 => is_up(altered, a),
        6 => is_up(changed, a),
        _ => {
            if is_up(changed, a) {
                return true;
            }
            is_up(changed, image::le16(image, at + 4) as usize)
        }
    }
}
