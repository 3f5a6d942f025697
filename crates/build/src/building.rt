// The whole image of a text that is accepted, and within the limits.
ghost use Rattle.std.specs.Prelude.{◌≡◌};
ghost use Rattle.build.specs.Building.{Builds, Makes, counted_told};

use super::declarations::declarations;
use super::known::Source;
use super::nodes::{Course, node};
use super::write::{NOTHING, put_header};
use names::{Tables, Told, fill_kinds};
use recognise::Recognised;

// The tables' counts are the text's, for texts whose declarations are more than the tables', too.
fn counted(told: Told, seen: Recognised) -> Told
    ensures { result ≡ counted_told told seen }
{
    Told {
        whole: told.whole,
        commands: told.commands,
        lookups: seen.lookups,
        variables: seen.variables,
        nodes: told.nodes,
    }
}

// The sections begin at `base`, `vbase` and `lbase`.
fn sections<'a>(names: Tables<'a>, base: usize, vbase: usize, lbase: usize, image: &mut [u8; 41108])
    ensures { Makes names.entry.text.now names.entry.from.now names.entry.to.now names.entry.owner.now names.entry.told base vbase lbase image.old image.new }
{
    let mut kind = [0usize; 704];
    let mut pending = [0usize; 6147];
    fill_kinds(names.text, names.owner, &mut kind);
    let at = declarations(names, image, &mut kind, lbase);
    let start = Course {
        at,
        nodes: 0,
        entries: 0,
        variables: 0,
    };
    let source = Source {
        names,
        kind: &kind,
        base,
        vbase,
    };
    node(
        source,
        image,
        &mut pending,
        NOTHING,
        start,
        names.text.len(),
    );
}

// The image, from the tables of the declarations and the counts. The limits are tested here too, though `read` refuses a text beyond them before (over_limits):
// what may not change, since `build` asks nothing of its caller, and put_header and the places of the sections need them.
pub fn build<'a>(names: Tables<'a>, seen: Recognised, image: &mut [u8; 41108])
    ensures { Builds names.entry.text.now seen names.entry.from.now names.entry.to.now names.entry.owner.now names.entry.told image.old image.new }
{
    let nodes = seen.nodes;
    let entries = seen.entries;
    let variables = seen.variables;
    let lookups = seen.lookups;
    if nodes > 256 {
        return;
    }
    if entries > 2048 {
        return;
    }
    if variables > 128 {
        return;
    }
    if lookups > 64 {
        return;
    }
    put_header(image, seen);
    let base = 20 + 24 * nodes;
    let vbase = base + 16 * entries;
    let lbase = vbase + 16 * variables;
    let told = counted(names.told, seen);
    sections(Tables { told, ..names }, base, vbase, lbase, image);
}
