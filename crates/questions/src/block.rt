// The lines of a block, answered one after the other.
ghost use Rattle.std.specs.Prelude.{◌≡◌, true, false, ◌<◌, length};
ghost use Rattle.questions.specs.Blocks.{ask_work};
ghost use Rattle.questions.specs.Turns.{Goes, Turned};

use crate::{LINE_ROOM, Progress};

// Whether characters are left in the block, and there is room for any line, its items and its answer.
pub(crate) fn goes_on(block: usize, line: usize, out: usize, table: usize, at: Progress) -> bool
    ensures { (result ≡ true → Goes block line out table at) × (result ≡ false → Goes block line out table at → ⊥) }
{
    at.next < block && LINE_ROOM <= line && ask_room::has_room(table, out, at.filled)
}

// Takes the characters up to the next LF, and answers the line if the LF was met.
pub(crate) fn turn(
    block: &[u8],
    line: &mut [u8],
    out: &mut [u8],
    table: &mut [u64],
    at: Progress,
) -> Progress
    requires { Goes (length block.now) (length line.old) (length out.old) (length table.old) at }
    ensures { Turned block.now (ask_work at line.old out.old table.old)
        (ask_work result line.new out.new table.new) }
{
    let taken = lines::take_line(block, at.next, line, at.kept);
    if !taken.ended {
        return Progress {
            kept: taken.kept,
            next: taken.next,
            filled: at.filled,
        };
    }
    let Some(end) = ask_answers::answer_line(&line[..taken.kept], out, table, at.filled) else {
        return at;
    };
    Progress {
        kept: 0,
        next: taken.next,
        filled: end,
    }
}
