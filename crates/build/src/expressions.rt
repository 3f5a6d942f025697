// Expressions: "boolean", whose operators are kept until their right operands have ended, with operands that are "numeric".
ghost use Rattle.build.specs.Known.{tables_of};
ghost use Rattle.build.specs.Pendings.{Reads};

use super::entries::last;
use super::known::Source;
use super::leaves::numeric;
use super::pending::{Stand, follow, prefixes, push};
use super::steps::Progress;
use recognise::Cursor;

// Operands with the operators between them, to the end of the expression, with at most `left` of each.
pub fn boolean<'a>(
    source: Source<'a>,
    image: &mut [u8; 41108],
    pending: &mut [usize; 6147],
    node: usize,
    c: Cursor,
    count: usize,
    left: usize,
) -> Progress
    ensures { Reads source.entry.names.text.now (tables_of source.entry) node source.entry.base left c count pending.old image.old result.at result.entries pending.new image.new }
{
    pending[2] = 0;
    let mut s = Stand {
        at: c,
        top: 0,
        entries: count,
    };
    for _ in 0..left {
        let o = prefixes(source.names, pending, s.top, s.at, left);
        let first = o.at;
        let p = numeric(source, image, node, first, s.entries, left);
        let after = p.at;
        let read = Stand {
            at: after,
            top: o.top,
            entries: p.entries,
        };
        let f = follow(source, image, pending, read, left);
        let at = f.at;
        if at.says > 90 {
            return Progress {
                at,
                entries: f.entries,
            };
        }
        let top = push(pending, f.top, at.says, last(f.entries));
        s = Stand {
            at,
            top,
            entries: f.entries,
        };
    }
    let at = s.at;
    Progress {
        at,
        entries: s.entries,
    }
}
