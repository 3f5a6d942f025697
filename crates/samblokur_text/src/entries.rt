// The entry function, thin over the call by value, with no branch. It answers a number and fills lent memory, as the C interface does: samblokur_text_c exports it with these clauses.
ghost use Rattle.std.specs.Prelude.{◌≡◌};
ghost use Rattle.notation.specs.Reading.{read_reply};
ghost use Rattle.samblokur_text.specs.Report.{report_of};

// Reads a plan's text into the image that is lent. The report: the refusal's number, 0 where the text is accepted; the place or the record that it names; the image's length.
pub fn samblokur_read(text: &[u8], image: &mut [u8], report: &mut [u64; 3]) -> u32
    ensures { (result ≡ (read_reply text.now image.old).number)
        × (image.new ≡ (read_reply text.now image.old).image)
        × (report.new ≡ report_of (read_reply text.now image.old) report.old) }
{
    let reply = read::read(text, image);
    report[0] = reply.number as u64;
    report[1] = reply.place as u64;
    report[2] = reply.made as u64;
    reply.number
}
