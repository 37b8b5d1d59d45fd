// The listing of a recording: what the program writes for its lines, answered block by block.
#![tactic(auto)]

ghost use Rattle.recording_text.specs.Blocks.{BlockAnswered, EndAnswered};

use recording_state::State;

mod block;
mod line;
mod text;

// The most characters of an answer: two numbers of at most 20 digits, the digits of 16,384 octets, two spaces and an LF.
pub const LONGEST: usize = 32811;

// The characters that are kept of a line: one more than a line may have tells an over-long one.
pub const LINE_ROOM: usize = hexline::LINE_LIMIT + 1;

// The characters of the longest closing line: two numbers of at most 20 digits, `end`, two spaces and an LF.
pub const CLOSING: usize = 46;

// Where a call stands: the recording's state, the next character of the block, and the characters of output filled.
#[derive(Clone, Copy)]
pub struct Progress {
    pub state: State,
    pub next: usize,
    pub filled: usize,
}

// Takes characters of `block` from `from` on and answers each line that ends in it, from the start of `out`; stops at the block's end, or
// where `out` has no room left for the longest answer or `line` has under LINE_ROOM characters. `line` keeps the line that was begun.
pub fn answer_block(
    block: &[u8],
    from: usize,
    line: &mut [u8],
    places: &mut [u8],
    out: &mut [u8],
    state: State,
) -> Progress
    ensures { BlockAnswered block.now from line.old places.old out.old state
        result line.new places.new out.new }
{
    let mut octets = line::octets_memory();
    let mut message = line::message_memory();
    let start = Progress {
        state,
        next: from.min(block.len()),
        filled: 0,
    };
    block::answer_lines(block, line, places, out, start, &mut octets, &mut message)
}

// Answers the line that no LF ended, if one was begun, and writes the closing line; nothing where there is no room for the longest of both.
pub fn answer_end(line: &[u8], places: &mut [u8], out: &mut [u8], state: State) -> Option<usize>
    ensures { EndAnswered line.now places.old out.old state result places.new out.new }
{
    if out.len() < LONGEST + CLOSING {
        return None;
    }
    let kept = state.kept.min(line.len());
    if kept == 0 {
        let count = join_places::open_count(state.messages);
        return Some(text::put_end(out, 0, state.lines, count));
    }
    let mut octets = line::octets_memory();
    let mut message = line::message_memory();
    let number = state.lines.wrapping_add(1);
    let listed = line::list_line(
        &line[..kept],
        number,
        state.messages,
        places,
        out,
        0,
        &mut octets,
        &mut message,
    );
    let count = join_places::open_count(listed.after);
    Some(text::put_end(out, listed.end, number, count))
}
