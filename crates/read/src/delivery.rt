// The image that was made is checked, and copied out only if it is admitted.
ghost use Rattle.std.specs.Prelude.{◌≡◌, ◌++◌, ◌≤◌, length, take, drop};
ghost use Rattle.plexil.specs.Check.{verdict};
ghost use Rattle.notation.specs.Reading.{judged};
ghost use Rattle.read.specs.Reply.{reply_of};

use super::reply::{ReadReply, made, refused};
use plexil::Verdict;

// "nor ever beyond the image"
fn copy(from: &[u8], n: usize, image: &mut [u8])
    requires n_in_bounds { n ≤ length from.now }
    requires n_in_bounds_2 { n ≤ length image.old }
    ensures { image.new ≡ take n from.now ++ drop n image.old }
{
    image[..n].copy_from_slice(&from[..n]);
}

// The first n bytes of the scratch array are the image.
pub(crate) fn delivered(scratch: &[u8], n: usize, image: &mut [u8]) -> ReadReply
    requires n_in_bounds { n ≤ length scratch.now }
    requires n_in_bounds_2 { n ≤ length image.old }
    ensures { (result ≡ reply_of (judged (verdict (take n scratch.now)) (take n scratch.now) image.old))
        × (image.new ≡ (judged (verdict (take n scratch.now)) (take n scratch.now) image.old).image) }
{
    let checked = admit::check(&scratch[..n]);
    let verdict = checked.verdict;
    match verdict {
        Verdict::Refused(rule, i) => refused(admit::rule_number(rule), i as usize),
        Verdict::Admitted => {
            copy(scratch, n, image);
            made(n)
        }
    }
}
