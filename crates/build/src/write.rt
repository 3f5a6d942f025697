// Records into the bytes of an image.
ghost use Rattle.std.specs.Prelude.{◌≡◌, ◌∷◌, [], length, ◌+◌, ◌*◌, ◌≤◌};
ghost use Rattle.build.specs.Standing.{header};
ghost use Rattle.plexil.specs.Lists.{put};
ghost use Rattle.plexil.specs.Assemble.{bytes};
ghost use Rattle.plexil.specs.Assemble as Assemble;

use recognise::Recognised;

// Two bytes.
fn pair(image: &mut [u8; 41108], at: usize, x: u8, y: u8)
    requires { at + 2 ≤ 41108 }
    ensures { length image.old ≡ 41108 → image.new ≡ put image.old at (x ∷ (y ∷ [])) }
{
    image[at] = x;
    image[at + 1] = y;
}

// The k lowest bytes of n, least first.
pub fn little(image: &mut [u8; 41108], at: usize, k: usize, n: u64)
    requires { at + k ≤ 41108 }
    ensures { length image.old ≡ 41108 → image.new ≡ put image.old at (bytes k n) }
{
    let mut m = n;
    for i in 0..k {
        image[at + i] = (m % 256) as u8;
        m = m / 256;
    }
}

// An expression's entry: its code, the kind of its value, its operands and the bits of a constant.
#[derive(Clone, Copy)]
pub struct Entry {
    pub op: u8,
    pub kind: u8,
    pub a: usize,
    pub b: usize,
    pub word: u64,
}

// The entry that says nothing but its code 0.
pub const BLANK: Entry = Entry {
    op: 0,
    kind: 0,
    a: 0,
    b: 0,
    word: 0,
};

pub fn put_entry(image: &mut [u8; 41108], at: usize, e: Entry)
    requires { at + 16 ≤ 41108 }
    ensures { length image.old ≡ 41108 → image.new ≡ put image.old at (Assemble.expr e.op e.kind e.a e.b e.word) }
{
    pair(image, at, e.op, e.kind);
    little(image, at + 2, 2, e.a as u64);
    little(image, at + 4, 2, e.b as u64);
    little(image, at + 6, 2, 0);
    little(image, at + 8, 8, e.word);
}

// A variable's record.
pub fn put_variable(image: &mut [u8; 41108], at: usize, kind: u8, known: u8, owner: usize, w: u64)
    requires { at + 16 ≤ 41108 }
    ensures { length image.old ≡ 41108 → image.new ≡ put image.old at (Assemble.variable kind known owner w) }
{
    pair(image, at, kind, known);
    little(image, at + 2, 2, owner as u64);
    little(image, at + 4, 4, 0);
    little(image, at + 8, 8, w);
}

// A lookup's record.
pub fn put_lookup(image: &mut [u8; 41108], at: usize, kind: u8)
    requires { at + 2 ≤ 41108 }
    ensures { length image.old ≡ 41108 → image.new ≡ put image.old at (Assemble.lookup kind) }
{
    pair(image, at, kind, 0);
}

// Numbers of 16 bits, one after another.
fn words(image: &mut [u8; 41108], at: usize, ws: &[usize])
    requires { at + 2 * length ws.now ≤ 41108 }
    ensures { length image.old ≡ 41108 → image.new ≡ put image.old at (Assemble.words16 ws.now) }
{
    for i in 0..ws.len() {
        little(image, at + 2 * i, 2, ws[i] as u64);
    }
}

// What the image has where there is no parent, no condition or no entry: the definitions have the number (notation, Hearing.antt: no_conditions, parent_in).
pub const NOTHING: usize = 65535;

// The forms of nodes
pub const LIST: u8 = 0;

pub const COMMAND: u8 = 1;

pub const ASSIGNMENT: u8 = 2;

// A node's record: its parent, form and priority, the entries of its conditions, and what it does, to which value.
#[derive(Clone, Copy)]
pub struct Record<'a> {
    pub parent: usize,
    pub form: u8,
    pub priority: usize,
    pub given: &'a [usize; 7],
    pub what: usize,
    pub value: usize,
}

pub fn put_node<'a>(image: &mut [u8; 41108], at: usize, r: Record<'a>)
    requires room { at + 24 ≤ 41108 }
    requires seven_given { length r.given.now ≡ 7 }
    ensures { length image.old ≡ 41108 → image.new ≡ put image.old at (Assemble.node r.entry.parent r.entry.form r.entry.priority r.entry.given.now r.entry.what r.entry.value) }
{
    little(image, at, 2, r.parent as u64);
    pair(image, at + 2, r.form, 0);
    little(image, at + 4, 2, r.priority as u64);
    let given = r.given;
    words(image, at + 6, given);
    little(image, at + 20, 2, r.what as u64);
    little(image, at + 22, 2, r.value as u64);
}

// The header: "N (1..256), .. E (0..2048), .. V (0..128), .. L (0..64)", and where the sections begin.
pub fn put_header(image: &mut [u8; 41108], seen: Recognised)
    requires few_nodes { seen.nodes ≤ 256 }
    requires few_entries { seen.entries ≤ 2048 }
    requires few_variables { seen.variables ≤ 128 }
    requires few_lookups { seen.lookups ≤ 64 }
    ensures { length image.old ≡ 41108 → image.new ≡ put image.old 0 (header seen.nodes seen.entries seen.variables seen.lookups) }
{
    let a = 20 + 24 * seen.nodes;
    let b = a + 16 * seen.entries;
    let c = b + 16 * seen.variables;
    let row = [
        1,
        seen.nodes,
        seen.entries,
        seen.variables,
        seen.lookups,
        20,
        a,
        b,
        c,
        c + 2 * seen.lookups,
    ];
    words(image, 0, &row);
}
