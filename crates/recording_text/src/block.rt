// The lines of a block, answered one after the other.
ghost use Rattle.std.specs.Prelude.{◌≡◌, ◌+◌, ◌&&◌, length, nat_le, nat_lt};
ghost use Rattle.recording_text.specs.Listing.{longest};
ghost use Rattle.recording_text.specs.Blocks.{line_room, work_of, turn_of, block_from};
ghost use Rattle.recording_text.specs.Inner.{Memory, Room};

use crate::{LINE_ROOM, Progress, line};
use recording_state::State;

// Answers the lines that end in the block, as long as there is room.
pub(crate) fn answer_lines(
    block: &[u8],
    line: &mut [u8],
    places: &mut [u8],
    out: &mut [u8],
    start: Progress,
    octets: &mut [u8],
    message: &mut [u8],
) -> Progress
    requires { Memory octets.old message.old }
    ensures { work_of result line.new places.new out.new
        ≡ block_from (length block.now) block.now
        (work_of start line.old places.old out.old) }
{
    let mut at = start;
    // No `for`: what a turn leaves says whether there is another.
    while goes_on(block.len(), line.len(), out.len(), at.next, at.filled) {
        at = turn(block, line, places, out, at, octets, message);
    }
    at
}

// Whether characters are left in the block, and there is room for any line and its answer.
fn goes_on(block: usize, line: usize, out: usize, next: usize, filled: usize) -> bool
    ensures { result ≡ (nat_lt next block && (nat_le line_room line && nat_le (filled + longest) out)) }
{
    next < block && LINE_ROOM <= line && line::has_room(out, filled)
}

// Takes the characters up to the next LF, and answers the line if the LF was met.
fn turn(
    block: &[u8],
    line: &mut [u8],
    places: &mut [u8],
    out: &mut [u8],
    at: Progress,
    octets: &mut [u8],
    message: &mut [u8],
) -> Progress
    requires { Room out.old at.filled octets.old message.old }
    ensures { work_of result line.new places.new out.new
        ≡ turn_of block.now (work_of at line.old places.old out.old) }
{
    let Progress {
        state,
        next,
        filled,
    } = at;
    let taken = lines::take_line(block, next, line, state.kept);
    if !taken.ended {
        return Progress {
            state: State {
                kept: taken.kept,
                ..state
            },
            next: taken.next,
            filled,
        };
    }
    let number = state.lines.wrapping_add(1);
    let listed = line::list_line(
        &line[..taken.kept],
        number,
        state.messages,
        places,
        out,
        filled,
        octets,
        message,
    );
    Progress {
        state: State {
            messages: listed.after,
            lines: number,
            kept: 0,
        },
        next: taken.next,
        filled: listed.end,
    }
}
