// The question `type ORDER TYPE`: the check of a TypeCode.
ghost use Rattle.std.specs.Prelude.{◌≡◌, ◌≤◌, length};
ghost use Rattle.typecode.specs.TypeCode.{checked_type};
ghost use Rattle.ask_words.specs.Words.{words};
ghost use Rattle.ask_octets.specs.Octets.{line_most};
ghost use Rattle.ask_answers.specs.Questions.{ordered_type, type_question};
ghost use Rattle.ask_answers.specs.Replies.{reply_to, type_reply};

use ask_octets::MOST;
use ask_text::Reply;
use cdr::Order;

// Answers the words `ORDER TYPE`.
pub(crate) fn reply_type(rest: &[u8]) -> Reply
    requires { length rest.now ≤ line_most }
    ensures { result ≡ reply_to (type_question (words rest.now)) }
{
    let end = ask_words::first_end(rest);
    if end == rest.len() {
        return Reply::NoQuestion;
    }
    let Some(order) = ask_words::read_order(&rest[..end]) else {
        return Reply::NoQuestion;
    };
    reply_ordered(order, &rest[end + 1..])
}

// Answers the word `TYPE`.
fn reply_ordered(order: Order, rest: &[u8]) -> Reply
    requires { length rest.now ≤ line_most }
    ensures { result ≡ reply_to (ordered_type order (words rest.now)) }
{
    let mut memory = [0u8; MOST];
    let Some(n) = ask_octets::read_lone(rest, &mut memory) else {
        return Reply::NoQuestion;
    };
    check(&memory[..n], order)
}

// Answers with the check of octets as a type.
fn check(types: &[u8], order: Order) -> Reply
    ensures { result ≡ type_reply (checked_type types.now order).answer }
{
    let checked = typecode::check_type(types, order);
    let answer = checked.answer;
    match answer {
        Ok((used, kinds)) => Reply::Typed { used, kinds },
        Err(_) => Reply::Refused(typecode::type_answer_number(answer)),
    }
}
