// A text read into a plan image: no byte of the image is written but by an image that is admitted.
ghost use Rattle.std.specs.Prelude.{◌≡◌};
ghost use Rattle.notation.specs.Reading.{read_reply};
ghost use Rattle.read.specs.Reply.{reply_of};

use super::delivery::delivered;
use super::reply::ReadReply;
use super::surveying::survey;
use names::Tables;

pub fn read(text: &[u8], image: &mut [u8]) -> ReadReply
    ensures { (result ≡ reply_of (read_reply text.now image.old)) × (image.new ≡ (read_reply text.now image.old).image) }
{
    let mut from = [0usize; 704];
    let mut to = [0usize; 704];
    let mut owner = [0usize; 10525];
    let found = match survey(text, image.len(), &mut from, &mut to, &mut owner) {
        Ok(found) => found,
        Err(refusal) => return refusal,
    };
    let mut scratch = [0u8; 41108];
    let names = Tables {
        text,
        from: &from,
        to: &to,
        owner: &owner,
        told: found.told,
    };
    build::build(names, found.seen, &mut scratch);
    delivered(&scratch, found.made, image)
}
