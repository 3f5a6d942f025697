// The rows of the grammar by position and class of token: one list holds the rows of all positions, each at its base.
ghost use Rattle.std.specs.Prelude.{◌≡◌, ◌<◌, get_or};
ghost use Rattle.recognise.specs.Tables.{bases, owners, row_at, row_of};
ghost use Rattle.recognise.specs.Replies.{effect_code, row_told};

// What a row does to what is still to come.
#[derive(Clone, Copy)]
pub enum Effect {
    GoesOn,
    BeginsNode,
    BeginsInList,
    ClosesList,
    OpensList,
    Assigns,
    OpensParen,
    Ends,
    ClosesParen,
    // The attribute of the number, one of eight.
    Marks(u8),
}

// A row: its effect, the number of what its token says, and the position that follows.
#[derive(Clone, Copy)]
pub struct Move {
    pub effect: Effect,
    pub says: u8,
    pub next: u8,
}

// The tables hold numbers, as the definitions of the same lists in specs/Tables do.

// Where the rows of a position begin: the row of a class stands at the base and the class.
const BASES: [u8; 78] = [
    119, 117, 44, 17, 44, 9, 0, 5, 6, 59, 69, 79, 82, 88, 94, 130, 116, 145, 162, 166, 166, 165,
    167, 168, 169, 170, 172, 177, 178, 179, 180, 29, 100, 137, 155, 176, 107, 123, 153, 6, 69, 88,
    177, 178, 74, 179, 183, 21, 83, 184, 184, 119, 184, 185, 0, 170, 23, 189, 56, 190, 0, 187, 107,
    123, 192, 175, 152, 154, 156, 189, 194, 127, 0, 82, 0, 162, 126, 136,
];

// The position whose row stands there, 255 where none does.
const OWNERS: [u8; 270] = [
    255, 6, 54, 54, 54, 54, 7, 8, 255, 255, 255, 255, 255, 255, 255, 255, 255, 255, 54, 255, 255,
    54, 54, 60, 54, 54, 47, 39, 39, 39, 72, 72, 72, 72, 72, 72, 72, 74, 74, 74, 74, 255, 56, 56, 2,
    255, 2, 2, 2, 54, 2, 2, 2, 2, 2, 2, 2, 2, 2, 2, 2, 58, 54, 4, 4, 3, 54, 54, 54, 54, 54, 54, 54,
    56, 54, 56, 5, 56, 56, 56, 56, 56, 56, 56, 56, 56, 56, 56, 56, 47, 47, 47, 40, 41, 4, 47, 4,
    31, 31, 4, 4, 4, 4, 4, 4, 4, 4, 4, 4, 4, 9, 41, 73, 73, 73, 73, 73, 73, 73, 0, 10, 0, 0, 0, 58,
    58, 58, 58, 58, 58, 58, 40, 11, 62, 62, 62, 62, 40, 40, 40, 40, 40, 44, 44, 44, 44, 44, 44, 32,
    12, 41, 48, 48, 48, 48, 13, 41, 41, 41, 36, 36, 14, 41, 76, 1, 1, 0, 32, 76, 76, 76, 76, 76,
    77, 62, 37, 37, 15, 77, 77, 77, 77, 77, 16, 1, 33, 0, 51, 51, 51, 51, 63, 63, 63, 63, 71, 71,
    71, 71, 75, 75, 75, 75, 34, 33, 38, 38, 66, 66, 67, 67, 68, 68, 17, 18, 19, 20, 21, 22, 23, 24,
    25, 34, 26, 27, 28, 29, 30, 35, 42, 43, 45, 46, 49, 50, 52, 53, 55, 57, 59, 61, 64, 65, 69, 70,
    255, 255, 255, 255, 255, 255, 255, 255, 255, 255, 255, 255, 255, 255, 255, 255, 255, 255, 255,
    255, 255, 255, 255, 255, 255,
];

// What the row does to the counts.
const EFFECTS: [u8; 270] = [
    0, 1, 1, 1, 1, 1, 1, 1, 0, 0, 0, 0, 0, 0, 0, 0, 0, 0, 1, 0, 0, 1, 1, 1, 1, 1, 1, 1, 1, 1, 1, 1,
    1, 1, 1, 1, 1, 1, 1, 1, 1, 0, 1, 1, 1, 0, 1, 1, 1, 7, 5, 6, 17, 10, 11, 12, 13, 14, 15, 16, 16,
    1, 1, 1, 1, 1, 1, 1, 1, 1, 1, 1, 1, 9, 1, 8, 1, 1, 1, 1, 1, 1, 1, 1, 1, 1, 1, 1, 1, 1, 1, 1, 1,
    1, 9, 1, 8, 1, 1, 1, 1, 1, 1, 1, 1, 1, 1, 1, 1, 1, 1, 1, 1, 1, 1, 1, 1, 1, 1, 1, 1, 1, 1, 1, 1,
    1, 1, 1, 1, 1, 1, 1, 1, 1, 1, 1, 1, 1, 1, 1, 1, 1, 1, 1, 1, 1, 1, 1, 1, 1, 1, 1, 1, 1, 1, 1, 1,
    1, 1, 1, 1, 1, 1, 1, 3, 4, 2, 1, 1, 1, 1, 1, 1, 1, 1, 1, 1, 1, 1, 1, 1, 1, 1, 1, 3, 1, 2, 1, 1,
    1, 1, 1, 1, 1, 1, 1, 1, 1, 1, 1, 1, 1, 1, 1, 1, 1, 1, 1, 1, 1, 1, 1, 1, 1, 1, 1, 1, 1, 1, 1, 1,
    1, 1, 1, 1, 1, 1, 1, 1, 1, 1, 1, 1, 1, 1, 1, 1, 1, 1, 1, 1, 1, 1, 1, 1, 0, 0, 0, 0, 0, 0, 0, 0,
    0, 0, 0, 0, 0, 0, 0, 0, 0, 0, 0, 0, 0, 0, 0, 0, 0,
];

// The number of what its token says.
const SAYS: [u8; 270] = [
    0, 0, 39, 40, 41, 0, 0, 0, 0, 0, 0, 0, 0, 0, 0, 0, 0, 0, 79, 0, 0, 32, 31, 0, 0, 0, 0, 24, 23,
    0, 45, 46, 47, 48, 49, 50, 51, 59, 60, 61, 62, 0, 81, 80, 0, 0, 0, 0, 0, 91, 8, 0, 0, 12, 13,
    14, 15, 16, 17, 18, 18, 0, 0, 81, 80, 0, 79, 43, 33, 33, 33, 33, 33, 92, 35, 93, 1, 0, 82, 83,
    84, 85, 86, 87, 88, 89, 90, 81, 80, 28, 28, 28, 0, 0, 92, 28, 93, 19, 19, 82, 83, 84, 85, 86,
    87, 88, 89, 90, 81, 80, 0, 0, 52, 53, 54, 55, 56, 57, 58, 0, 0, 0, 0, 0, 34, 34, 34, 34, 34,
    34, 36, 0, 0, 0, 0, 0, 0, 25, 25, 25, 25, 25, 26, 26, 26, 26, 26, 26, 0, 3, 0, 29, 29, 29, 29,
    4, 27, 27, 27, 0, 0, 5, 27, 67, 7, 9, 7, 20, 68, 69, 70, 71, 72, 73, 44, 0, 0, 0, 74, 75, 76,
    77, 78, 10, 6, 0, 6, 30, 30, 30, 30, 37, 37, 37, 37, 38, 38, 38, 38, 63, 64, 65, 66, 0, 21, 0,
    0, 0, 0, 0, 0, 0, 0, 2, 0, 0, 0, 0, 0, 0, 0, 0, 22, 0, 0, 0, 0, 0, 0, 0, 0, 0, 0, 0, 0, 0, 0,
    11, 0, 0, 0, 0, 42, 0, 0, 0, 0, 0, 0, 0, 0, 0, 0, 0, 0, 0, 0, 0, 0, 0, 0, 0, 0, 0, 0, 0, 0, 0,
    0, 0,
];

// The position that follows.
const NEXTS: [u8; 270] = [
    0, 12, 60, 60, 60, 57, 13, 14, 0, 0, 0, 0, 0, 0, 0, 0, 0, 0, 54, 0, 0, 4, 4, 4, 59, 59, 49, 42,
    42, 42, 4, 4, 4, 4, 4, 4, 4, 4, 4, 4, 4, 0, 54, 54, 10, 0, 23, 24, 25, 54, 9, 52, 26, 53, 53,
    53, 53, 53, 53, 53, 53, 64, 58, 54, 54, 1, 54, 56, 4, 4, 4, 4, 4, 4, 4, 0, 11, 62, 54, 54, 54,
    54, 54, 54, 54, 54, 54, 54, 54, 45, 45, 45, 43, 46, 4, 45, 0, 35, 35, 54, 54, 54, 54, 54, 54,
    54, 54, 54, 54, 54, 15, 45, 4, 4, 4, 4, 4, 4, 4, 5, 16, 6, 7, 8, 4, 4, 4, 4, 4, 4, 4, 44, 17,
    66, 67, 68, 68, 43, 43, 43, 43, 43, 43, 43, 43, 43, 43, 43, 2, 18, 47, 50, 50, 50, 50, 18, 45,
    45, 45, 32, 39, 18, 45, 4, 2, 3, 2, 36, 4, 4, 4, 4, 4, 4, 69, 33, 40, 1, 4, 4, 4, 4, 4, 19, 22,
    2, 22, 50, 50, 50, 50, 70, 70, 70, 70, 70, 70, 70, 70, 4, 4, 4, 4, 2, 37, 34, 41, 72, 73, 74,
    75, 76, 77, 18, 0, 20, 21, 3, 27, 28, 29, 30, 38, 31, 2, 32, 33, 34, 2, 32, 33, 34, 48, 51, 45,
    55, 54, 61, 63, 65, 54, 71, 70, 62, 4, 0, 0, 0, 0, 0, 0, 0, 0, 0, 0, 0, 0, 0, 0, 0, 0, 0, 0, 0,
    0, 0, 0, 0, 0, 0,
];

// What the row with the number does, if there is one: an Option and no `TryFrom`, as in the definition `effect_code`.
#[tactic(auto, unfolding(crate::specs::Replies::effect_code, crate::specs::Replies::plain_effects))]
fn effect_code(e: u8) -> Option<Effect>
    ensures { result ≡ effect_code e }
{
    match e {
        1 => Some(Effect::GoesOn),
        2 => Some(Effect::BeginsNode),
        3 => Some(Effect::BeginsInList),
        4 => Some(Effect::ClosesList),
        5 => Some(Effect::OpensList),
        6 => Some(Effect::Assigns),
        7 => Some(Effect::OpensParen),
        8 => Some(Effect::Ends),
        9 => Some(Effect::ClosesParen),
        10..=17 => Some(Effect::Marks(e - 10)),
        _ => None,
    }
}

// `base` and `owner` are each of one definition, `bases` and `owners`, and each has its own bound: one for both would take the table and be no plainer.
fn base(at: usize) -> u8
    requires { at < 78 }
    ensures { result ≡ get_or bases at 0 }
{
    BASES[at]
}

fn owner(i: usize) -> u8
    requires { i < 270 }
    ensures { result ≡ get_or owners i 0 }
{
    OWNERS[i]
}

fn row_at(i: usize) -> Option<Move>
    requires { i < 270 }
    ensures { result ≡ row_told (row_at i) }
{
    let effect = effect_code(EFFECTS[i])?;
    Some(Move {
        effect,
        says: SAYS[i],
        next: NEXTS[i],
    })
}

// The row of the position that a token of the class begins, if there is one.
pub fn row_of(at: u8, class: u8) -> Option<Move>
    ensures { result ≡ row_told (row_of at class) }
{
    if at >= 78 {
        return None;
    }
    if class >= 76 {
        return None;
    }
    let i = base(at as usize) as usize + class as usize;
    if owner(i) != at {
        return None;
    }
    row_at(i)
}
