// What a saying does to the names of a plan.
ghost use Rattle.std.specs.Prelude.{◌≡◌};
ghost use Rattle.recognise.specs.Codes.{say_of};
ghost use Rattle.names.specs.Roles.{role_of, role_number};

const ROLES: [u8; 94] = [
    15, 0, 14, 1, 1, 1, 3, 4, 5, 6, 7, 8, 15, 15, 15, 15, 15, 15, 15, 15, 2, 2, 2, 15, 15, 15, 15,
    15, 15, 15, 15, 15, 15, 15, 15, 15, 15, 15, 15, 15, 15, 15, 9, 10, 11, 12, 12, 12, 12, 12, 12,
    12, 12, 12, 12, 12, 12, 12, 12, 12, 12, 12, 12, 12, 12, 12, 12, 12, 12, 12, 12, 12, 12, 12, 12,
    12, 12, 12, 12, 15, 13, 13, 13, 13, 13, 13, 13, 13, 13, 13, 13, 15, 13, 13,
];

// The role of a saying, by their numbers.
// They stay numbers, and so do the sorts: the definitions role_number (Roles.antt) and list_of (Tale.antt) have them, and the sayings' are say_of's (recognise, Codes.antt).
pub fn role_of(says: u8) -> u8
    ensures { result ≡ role_number (role_of (say_of says)) }
{
    if says >= 94 {
        return 15;
    }
    let i = says as usize;
    ROLES[i]
}
