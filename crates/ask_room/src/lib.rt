// The room that the answer of any line needs.
#![tactic(auto)]

ghost use Rattle.std.specs.Prelude.{◌≡◌};
ghost use Rattle.ask_room.specs.Room.{answer_room};

// The numbers of a table for as many items as an answer may have, three each.
pub const TABLE_ROOM: usize = cdr::OCTETS_LIMIT * 3;

// The characters of the longest answer: three numbers of at most 20 digits, `ok` and four spaces; and 16,384 items of three such numbers,
// two colons and a comma or an LF, which are more than the digits of 16,391 octets, or of a profile's host and key, each within 16,384 octets,
// and three numbers beside them.
pub const LONGEST: usize = 66 + cdr::OCTETS_LIMIT * 63;

// Whether a table of `table` numbers and an output of `out` characters have room for any line's answer from `at` on.
pub fn has_room(table: usize, out: usize, at: usize) -> bool
    ensures { result ≡ answer_room table out at }
{
    TABLE_ROOM <= table && LONGEST <= out && at <= out - LONGEST
}
