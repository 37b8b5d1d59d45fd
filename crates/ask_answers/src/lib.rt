// One line's answer: the question that a line is, and the text of its answer: the check of a TypeCode, the reading of a value, one of its items,
// a value rewritten, the reading of a profile body, and one of its components.
#![tactic(auto)]

ghost use Rattle.std.specs.Prelude.{◌≡◌, ◌^◌, ◌<◌, ◌≤◌, length};
ghost use Rattle.cdr_write.specs.Write.{Stored};
ghost use Rattle.ask_room.specs.Room.{table_room};
ghost use Rattle.ask_words.specs.Words.{words};
ghost use Rattle.ask_octets.specs.Octets.{line_most};
ghost use Rattle.ask_answers.specs.Questions.{word_question, question_of};
ghost use Rattle.ask_answers.specs.Replies.{answer_line};
ghost use Rattle.ask_answers.specs.Answers.{table_for, LineAnswered};
ghost use Rattle.ask_answers.specs.Inner.{reply_numbers, Replied, rewritten_most, reply_octets, OctetsHeld};

use ask_text::Reply;

mod about;
mod profiles;
mod rewrites;
mod types;
mod values;

// The most characters of a line.
pub const LINE_LIMIT: usize = ask_octets::LINE_LIMIT;

// Writes the answer of a line's characters, and its LF, from `at` on, and leaves its items in `table`; nothing where there is no room for the
// longest answer.
pub fn answer_line(line: &[u8], out: &mut [u8], table: &mut [u64], at: usize) -> Option<usize>
    ensures { LineAnswered line.now out.old table.old at result out.new table.new }
{
    if ask_room::has_room(table.len(), out.len(), at) {
        return answer_with(line, out, table, at);
    }
    None
}

// Writes the answer of a line, where the table has room for its items.
fn answer_with(line: &[u8], out: &mut [u8], table: &mut [u64], at: usize) -> Option<usize>
    requires { table_room ≤ length table.old }
    ensures { (Stored out.old at (answer_line line.now) result out.new)
        × (table.new ≡ table_for (question_of line.now) table.old) }
{
    let mut memory = [0u8; rewrites::MOST];
    let reply = reply_to(line, table, &mut memory);
    let n = numbers_of(reply);
    let m = octets_of(reply);
    ask_text::write_reply(out, at, reply, &table[..n], &memory[..m])
}

// The numbers of the table that an answer has.
fn numbers_of(reply: Reply) -> usize
    requires { reply_numbers reply < 2 ^ 64 }
    ensures { result ≡ reply_numbers reply }
{
    match reply {
        Reply::Read { count, .. } => count * 3,
        _ => 0,
    }
}

// The octets of the memory that an answer has.
fn octets_of(reply: Reply) -> usize
    ensures { result ≡ reply_octets reply }
{
    match reply {
        Reply::Rewritten(count) | Reply::Profiled(_, count) | Reply::Component(_, _, count) =>
            count,
        _ => 0,
    }
}

// What a line is answered; a value's items are left in `table`, a rewritten value's octets or a profile body in `memory`.
fn reply_to(line: &[u8], table: &mut [u64], memory: &mut [u8]) -> Reply
    requires { (table_room ≤ length table.old) × (rewritten_most ≤ length memory.old) }
    ensures { (Replied (question_of line.now) table.old result table.new)
        × OctetsHeld (question_of line.now) result memory.new }
{
    if LINE_LIMIT < line.len() {
        return Reply::NoQuestion;
    }
    let end = ask_words::first_end(line);
    if end == line.len() {
        return Reply::NoQuestion;
    }
    reply_words(&line[..end], &line[end + 1..], table, memory)
}

// What the first word of a line and those behind it are answered.
fn reply_words(word: &[u8], rest: &[u8], table: &mut [u64], memory: &mut [u8]) -> Reply
    requires { (length rest.now ≤ line_most) × (table_room ≤ length table.old) × (rewritten_most ≤ length memory.old) }
    ensures { (Replied (word_question word.now (words rest.now)) table.old result table.new)
        × OctetsHeld (word_question word.now (words rest.now)) result memory.new }
{
    if ask_words::same(word, b"type") {
        return types::reply_type(rest);
    }
    if ask_words::same(word, b"value") {
        return values::reply_value(rest, table);
    }
    if ask_words::same(word, b"item") {
        return values::reply_item(rest);
    }
    if ask_words::same(word, b"rewrite") {
        return rewrites::reply_rewrite(rest, memory);
    }
    if ask_words::same(word, b"profile") {
        return profiles::reply_profile(rest, memory);
    }
    if ask_words::same(word, b"component") {
        return profiles::reply_component(rest, memory);
    }
    Reply::NoQuestion
}
