// The reply of reading a text, beside the lent image.
ghost use Rattle.std.specs.Prelude.{◌≡◌};
ghost use Rattle.read.specs.Reply.{refused_reply, made_reply};

// number: the refusal, 0 where the text is accepted; place: the place in the text or the record that it names; made: the image's length.
// The refusal stays a number: read::read and samblokur_read, with the definition read_reply (notation, Reading.antt), promise it so.
#[derive(Clone, Copy)]
pub struct ReadReply {
    pub number: u32,
    pub place: usize,
    pub made: usize,
}

// "The image length is 0 on every refusal".
pub(crate) fn refused(number: u32, place: usize) -> ReadReply
    ensures { result ≡ refused_reply number place }
{
    ReadReply {
        number,
        place,
        made: 0,
    }
}

pub(crate) fn made(n: usize) -> ReadReply
    ensures { result ≡ made_reply n }
{
    ReadReply {
        number: 0,
        place: 0,
        made: n,
    }
}
