// "Fresh: node 0 Waiting, others Inactive, outcomes None, variables initial, lookups Unknown, marks clear".
ghost use Rattle.std.specs.Prelude.{◌≡◌, ◌≤◌};
ghost use Rattle.plexil.specs.Image.{var_count};
ghost use Rattle.plexil.specs.Places.{fresh_state};

use super::cells::initial;
use plexil::State;

// "V (0..128)", as in every admitted plan: a state has no place for more.
pub fn fresh_state(image: &[u8]) -> State
    requires { var_count image.now ≤ 128 }
    ensures { result ≡ fresh_state image.now }
{
    let mut vartags = [0u8; 128];
    let mut varbits = [0u64; 128];
    for v in 0..image::var_count(image) {
        let c = initial(image, v);
        vartags[v as usize] = c.tag;
        varbits[v as usize] = c.bits;
    }
    let mut status = [0u8; 256];
    status[0] = 1;
    State {
        status,
        outcome: [0u8; 256],
        failure: [0u8; 256],
        mark: [0u8; 256],
        vartags,
        varbits,
        looktags: [0u8; 64],
        lookbits: [0u64; 64],
    }
}
