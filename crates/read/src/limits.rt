// The limits of a plan image (3), and how long it is (43). `build` tests them again: what may not change, it asks nothing of its caller.
ghost use Rattle.std.specs.Prelude.{◌≡◌, true, not};
ghost use Rattle.read.specs.Limits.{fits, length_of};

use recognise::Recognised;

// "3 Count: outside the limits": "N (1..256), .. E (0..2048), .. V (0..128), .. L (0..64)"
pub(crate) fn over_limits(seen: Recognised) -> bool
    ensures { result ≡ not (fits seen) }
{
    if seen.nodes > 256 {
        return true;
    }
    if seen.entries > 2048 {
        return true;
    }
    if seen.variables > 128 {
        return true;
    }
    if seen.lookups > 64 {
        return true;
    }
    false
}

// How long the image is.
pub(crate) fn length_of(seen: Recognised) -> usize
    requires { fits seen ≡ true }
    ensures { result ≡ length_of seen }
{
    20 + 24 * seen.nodes + 16 * seen.entries + 16 * seen.variables + 2 * seen.lookups
}
