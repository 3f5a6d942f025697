// The library that a desk links to read plans as text from C: the entry function of `samblokur_text` under its name in C, with the same clauses. A number and lent memory: the C interface.
#![tactic(auto)]

ghost use Rattle.std.specs.Prelude.{◌≡◌};
ghost use Rattle.notation.specs.Reading.{read_reply};
ghost use Rattle.samblokur_text.specs.Report.{report_of};

// Reads a plan's text into the image that is lent. The report: the refusal's number, 0 where the text is accepted; the place or the record that it names; the image's length.
#[unsafe(no_mangle)]
pub extern "C" fn samblokur_read(text: &[u8], image: &mut [u8], report: &mut [u64; 3]) -> u32
    ensures { (result ≡ (read_reply text.now image.old).number)
        × (image.new ≡ (read_reply text.now image.old).image)
        × (report.new ≡ report_of (read_reply text.now image.old) report.old) }
{
    samblokur_text::samblokur_read(text, image, report)
}
