// The question `rewrite ORDER TYPE ORDER VALUE START ORDER START ROOM`.
ghost use Rattle.std.specs.Prelude.{◌≤◌, length};
ghost use Rattle.cdr.specs.Align.{index_of};
ghost use Rattle.value_meaning.specs.Sinks.{source};
ghost use Rattle.rewrite_meaning.specs.Written.{target};
ghost use Rattle.ask_words.specs.Words.{words};
ghost use Rattle.ask_words.specs.Fields.{rewrite_fields_of};
ghost use Rattle.ask_octets.specs.Octets.{line_most};
ghost use Rattle.ask_answers.specs.Questions.{rewrite_asked, rewrite_question};
ghost use Rattle.ask_answers.specs.Inner.{rewritten_most, OctetsHeld};

use crate::about;
use ask_text::Reply;
use cdr::{Index, OCTETS_LIMIT, Order};
use rewrite_meaning::RewriteAnswer;

// The most octets of a rewritten value: seven more than a value may have.
pub(crate) const MOST: usize = OCTETS_LIMIT + 7;

// Answers the words behind `rewrite`, and leaves the octets in the lent memory.
pub(crate) fn reply_rewrite(rest: &[u8], memory: &mut [u8]) -> Reply
    requires { (length rest.now ≤ line_most) × (rewritten_most ≤ length memory.old) }
    ensures { OctetsHeld (rewrite_question (rewrite_fields_of (words rest.now))) result memory.new }
{
    let Some(asked) = ask_words::read_rewrite(rest) else {
        return Reply::NoQuestion;
    };
    let mut types = [0u8; ask_octets::MOST];
    let mut value = [0u8; ask_octets::MOST];
    let Some(about) = about::read(rest, asked.subject, &mut types, &mut value) else {
        return Reply::NoQuestion;
    };
    rewrite(
        &types[..about.type_count],
        about.typed,
        &value[..about.value_count],
        about.order,
        about.start,
        asked.order,
        asked.index,
        asked.room,
        memory,
    )
}

// Answers with a value rewritten. No value has more octets then than MOST, so that more room is no difference.
fn rewrite(
    types: &[u8],
    typed: Order,
    value: &[u8],
    order: Order,
    start: u64,
    chosen: Order,
    index: u64,
    room: u64,
    memory: &mut [u8],
) -> Reply
    requires { rewritten_most ≤ length memory.old }
    ensures { OctetsHeld (rewrite_asked typed types.now (source value.now order (index_of start)) (target chosen (index_of index)) room)
        result memory.new }
{
    let n = (room as usize).min(MOST);
    let first = Index(start as usize);
    let to = Index(index as usize);
    let answer = rewrite::rewrite(
        types,
        typed,
        value,
        order,
        first,
        chosen,
        to,
        &mut memory[..n],
    );
    match answer {
        RewriteAnswer::Accepted(count) => Reply::Rewritten(count),
        RewriteAnswer::Refused(number) => Reply::Refused(number),
    }
}
