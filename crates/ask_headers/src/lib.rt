// One line's answer about the header of a message: what it says, one of its contexts, a profile of the reference that a request is addressed to,
// and all before the body written back.
#![tactic(auto)]

ghost use Rattle.std.specs.Prelude.{◌≡◌, [], ◌*◌, ◌≤◌, length};
ghost use Rattle.cdr.specs.Limit.{octets_limit};
ghost use Rattle.cdr_write.specs.Write.{Stored};
ghost use Rattle.ask_words.specs.Words.{words};
ghost use Rattle.ask_words.specs.Fields.{numbered_fields_of};
ghost use Rattle.ask_octets.specs.Octets.{line_most};
ghost use Rattle.ask_text.specs.Replies.{reply_text};
ghost use Rattle.ask_headers.specs.HeaderQuestions.{context_asked, target_asked, head_asked, no_header_question, header_question, numbered_question};
ghost use Rattle.ask_headers.specs.HeaderQuestions.{header_word_question, is_header_word, asks_header};
ghost use Rattle.ask_headers.specs.HeaderReplies.{numbered_reply, header_reply_text, header_line};
ghost use Rattle.ask_headers.specs.Inner.{NumberedOctetsRead};

use ask_octets::{LINE_LIMIT, MOST};
use ask_text::Reply;
use cdr::OCTETS_LIMIT;
use cdr_fields::Extent;
use header_parts::Refusal;

// Whether a line asks about a header.
pub fn asks(line: &[u8]) -> bool
    ensures { result ≡ asks_header line.now }
{
    if LINE_LIMIT < line.len() {
        return false;
    }
    let end = ask_words::first_end(line);
    is_header_word(&line[..end])
}

// Whether a word asks about a header.
fn is_header_word(word: &[u8]) -> bool
    ensures { result ≡ is_header_word word.now }
{
    if ask_words::same(word, b"header") {
        return true;
    }
    if ask_words::same(word, b"context") {
        return true;
    }
    if ask_words::same(word, b"target") {
        return true;
    }
    ask_words::same(word, b"head")
}

// Writes the answer of a line's characters, and its LF, from `at` on; or nothing where it does not fit.
pub fn answer(line: &[u8], out: &mut [u8], at: usize) -> Option<usize>
    ensures { Stored out.old at (header_line line.now) result out.new }
{
    if LINE_LIMIT < line.len() {
        return no_question(out, at);
    }
    let end = ask_words::first_end(line);
    if end == line.len() {
        return no_question(out, at);
    }
    answer_words(&line[..end], &line[end + 1..], out, at)
}

// Writes the answer of the first word of a line and those behind it.
fn answer_words(word: &[u8], rest: &[u8], out: &mut [u8], at: usize) -> Option<usize>
    requires { length rest.now ≤ line_most }
    ensures { Stored out.old at (header_reply_text (header_word_question word.now (words rest.now))) result out.new }
{
    if ask_words::same(word, b"header") {
        return answer_header(rest, out, at);
    }
    if ask_words::same(word, b"context") {
        return answer_context(rest, out, at);
    }
    if ask_words::same(word, b"target") {
        return answer_target(rest, out, at);
    }
    if ask_words::same(word, b"head") {
        return answer_head(rest, out, at);
    }
    no_question(out, at)
}

// Writes the answer of the word behind `header`.
fn answer_header(rest: &[u8], out: &mut [u8], at: usize) -> Option<usize>
    requires { length rest.now ≤ line_most }
    ensures { Stored out.old at (header_reply_text (header_question (words rest.now))) result out.new }
{
    let mut message = [0u8; MOST];
    let Some(n) = ask_octets::read_lone(rest, &mut message) else {
        return no_question(out, at);
    };
    ask_header_text::write_header(out, at, &message[..n])
}

// Writes the answer of the words behind `context`.
fn answer_context(rest: &[u8], out: &mut [u8], at: usize) -> Option<usize>
    requires { length rest.now ≤ line_most }
    ensures { Stored out.old at (header_reply_text (numbered_question context_asked (numbered_fields_of (words rest.now))))
        result out.new }
{
    let mut message = [0u8; MOST];
    let Some((count, number)) = read_octets(rest, &mut message) else {
        return no_question(out, at);
    };
    let found = header::context(&message[..count], number);
    write_numbered(out, at, found, &message[..count])
}

// Writes the answer of the words behind `target`.
fn answer_target(rest: &[u8], out: &mut [u8], at: usize) -> Option<usize>
    requires { length rest.now ≤ line_most }
    ensures { Stored out.old at (header_reply_text (numbered_question target_asked (numbered_fields_of (words rest.now))))
        result out.new }
{
    let mut message = [0u8; MOST];
    let Some((count, number)) = read_octets(rest, &mut message) else {
        return no_question(out, at);
    };
    let found = header::target_profile(&message[..count], number);
    write_numbered(out, at, found, &message[..count])
}

// Writes the answer of the words behind `head`.
fn answer_head(rest: &[u8], out: &mut [u8], at: usize) -> Option<usize>
    requires { length rest.now ≤ line_most }
    ensures { Stored out.old at (header_reply_text (numbered_question head_asked (numbered_fields_of (words rest.now))))
        result out.new }
{
    let mut message = [0u8; MOST];
    let Some((count, number)) = read_octets(rest, &mut message) else {
        return no_question(out, at);
    };
    let mut memory = [0u8; OCTETS_LIMIT];
    write_head(out, at, &message[..count], number, &mut memory)
}

// Writes the text of what stands before a message's body, or of its refusal. No body begins behind OCTETS_LIMIT, so that more room is no difference.
fn write_head(
    out: &mut [u8],
    at: usize,
    message: &[u8],
    room: u64,
    memory: &mut [u8],
) -> Option<usize>
    requires { octets_limit ≤ length memory.old }
    ensures { Stored out.old at (header_reply_text (head_asked message.now room)) result out.new }
{
    let n = (room as usize).min(OCTETS_LIMIT);
    match header_head::head(message, &mut memory[..n]) {
        Ok(count) => write(out, at, Reply::Rewritten(count), &memory[..count]),
        Err(refusal) => write(out, at, Reply::Refused(refusal.number()), message),
    }
}

// The octets that OCTETS stands for, written from the start of `message`, and NUMBER or ROOM.
fn read_octets(rest: &[u8], message: &mut [u8]) -> Option<(usize, u64)>
    requires { length rest.now ≤ length message.old * 2 }
    ensures { NumberedOctetsRead (numbered_fields_of (words rest.now)) result message.new }
{
    let (end, number) = ask_words::read_numbered(rest)?;
    let count = ask_octets::read(&rest[..end], message)?;
    Some((count, number))
}

// Writes the text of a context or a profile of the message, or of its refusal.
fn write_numbered(
    out: &mut [u8],
    at: usize,
    found: Result<(u64, Extent), Refusal>,
    message: &[u8],
) -> Option<usize>
    ensures { Stored out.old at (reply_text (numbered_reply found (length message.now)) [] message.now) result out.new }
{
    match found {
        Ok((tag, octets)) => {
            write(
                out,
                at,
                Reply::Component(tag, octets, message.len()),
                message,
            )
        }
        Err(refusal) => { write(out, at, Reply::Refused(refusal.number()), message) }
    }
}

// Writes the text of an answer without items.
fn write(out: &mut [u8], at: usize, reply: Reply, octets: &[u8]) -> Option<usize>
    ensures { Stored out.old at (reply_text reply [] octets.now) result out.new }
{
    let items = [0u64; 1];
    ask_text::write_reply(out, at, reply, &items[..0], octets)
}

// Writes `?`.
fn no_question(out: &mut [u8], at: usize) -> Option<usize>
    ensures { Stored out.old at (header_reply_text no_header_question) result out.new }
{
    cdr_write::write_octets(out, at, b"?\n")
}
