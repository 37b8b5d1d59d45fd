// Questions, one a line, answered block by block.
#![tactic(auto)]

ghost use Rattle.questions.specs.Blocks.{QuestionsAnswered};

use ask_answers::LINE_LIMIT;

mod block;

// The characters that are kept of a line: one more than a line may have tells an over-long one.
pub const LINE_ROOM: usize = LINE_LIMIT + 1;

// Where a call stands: the characters kept of the line begun, the next character of the block, and the characters of output filled.
#[derive(Clone, Copy)]
pub struct Progress {
    pub kept: usize,
    pub next: usize,
    pub filled: usize,
}

// Takes characters of `block` from `from` on and answers each line that ends in it, from the start of `out`; stops at the block's end, or
// where `out` has no room left for the longest answer, `line` has under LINE_ROOM characters or `table` no room for any answer's items. `line`
// keeps the line that was begun, of which it has `kept` characters; `table` is left with the items of the values answered, each from its start on.
pub fn answer_block(
    block: &[u8],
    from: usize,
    line: &mut [u8],
    out: &mut [u8],
    table: &mut [u64],
    kept: usize,
) -> Progress
    ensures { QuestionsAnswered block.now from line.old out.old table.old kept
        result line.new out.new table.new }
{
    let mut at = Progress {
        kept,
        next: from.min(block.len()),
        filled: 0,
    };
    // No `for`: what a turn leaves says whether there is another.
    while block::goes_on(block.len(), line.len(), out.len(), table.len(), at) {
        at = block::turn(block, line, out, table, at);
    }
    at
}
