// The questions `value ORDER TYPE ORDER VALUE START ROOM` and `item ORDER TYPE ORDER VALUE START NUMBER`.
ghost use Rattle.std.specs.Prelude.{◌≡◌, ◌≤◌, length};
ghost use Rattle.cdr.specs.Align.{index_of};
ghost use Rattle.value_meaning.specs.Sinks.{source};
ghost use Rattle.ask_room.specs.Room.{table_room};
ghost use Rattle.ask_words.specs.Words.{words};
ghost use Rattle.ask_words.specs.Fields.{value_fields};
ghost use Rattle.ask_octets.specs.Octets.{line_most};
ghost use Rattle.ask_answers.specs.Questions.{value_asked, item_asked, about_question};
ghost use Rattle.ask_answers.specs.Replies.{item_shown, room_of, reply_to};
ghost use Rattle.ask_answers.specs.Inner.{Replied};

use crate::about;
use ask_octets::MOST;
use ask_text::Reply;
use cdr::{Index, Order};
use value_meaning::ValueAnswer;

// The most items of an answer.
const ITEMS: u64 = cdr::OCTETS_LIMIT as u64;

// The items that ROOM means.
fn room_of(room: u64) -> usize
    ensures { result ≡ room_of room }
{
    room.min(ITEMS) as usize
}

// Answers the words behind `value`, and leaves the items in `table`, three numbers each.
pub(crate) fn reply_value(rest: &[u8], table: &mut [u64]) -> Reply
    requires { (length rest.now ≤ line_most) × (table_room ≤ length table.old) }
    ensures { Replied (about_question value_asked (value_fields (words rest.now))) table.old result table.new }
{
    let Some(asked) = ask_words::read_fields(rest) else {
        return Reply::NoQuestion;
    };
    let mut types = [0u8; MOST];
    let mut value = [0u8; MOST];
    let Some(about) = about::read(rest, asked.subject, &mut types, &mut value) else {
        return Reply::NoQuestion;
    };
    read_value(
        &types[..about.type_count],
        about.typed,
        &value[..about.value_count],
        about.order,
        about.start,
        asked.number,
        table,
    )
}

// Answers with the reading of a value.
fn read_value(
    types: &[u8],
    typed: Order,
    value: &[u8],
    order: Order,
    start: u64,
    room: u64,
    table: &mut [u64],
) -> Reply
    requires { table_room ≤ length table.old }
    ensures { Replied (value_asked typed types.now (source value.now order (index_of start)) room) table.old
        result table.new }
{
    let n = room_of(room) * 3;
    let answer = value::read_value(
        types,
        typed,
        value,
        order,
        Index(start as usize),
        &mut table[..n],
    );
    match answer {
        ValueAnswer::Accepted {
            used,
            items,
            visits,
        } => Reply::Read {
            used,
            visits,
            count: items,
        },
        ValueAnswer::Refused { number, visits } => Reply::Unread { number, visits },
    }
}

// Answers the words behind `item`.
pub(crate) fn reply_item(rest: &[u8]) -> Reply
    requires { length rest.now ≤ line_most }
    ensures { result ≡ reply_to (about_question item_asked (value_fields (words rest.now))) }
{
    let Some(asked) = ask_words::read_fields(rest) else {
        return Reply::NoQuestion;
    };
    let mut types = [0u8; MOST];
    let mut value = [0u8; MOST];
    let Some(about) = about::read(rest, asked.subject, &mut types, &mut value) else {
        return Reply::NoQuestion;
    };
    read_item(
        &types[..about.type_count],
        about.typed,
        &value[..about.value_count],
        about.order,
        about.start,
        asked.number,
    )
}

// Answers with an item of a value.
fn read_item(
    types: &[u8],
    typed: Order,
    value: &[u8],
    order: Order,
    start: u64,
    number: u64,
) -> Reply
    ensures { result ≡ reply_to (item_asked typed types.now (source value.now order (index_of start)) number) }
{
    let answer = value::read_item(types, typed, value, order, Index(start as usize), number);
    match answer {
        Ok(item) => shown(item.case(), item.bits()),
        Err(number) => Reply::Refused(number),
    }
}

// An item's answer by its case and its bits.
fn shown(case: u64, bits: u64) -> Reply
    ensures { result ≡ item_shown «case» bits }
{
    match case {
        0 => Reply::Signed(bits),
        1 => Reply::Unsigned(bits),
        2 => Reply::Single(bits),
        _ => Reply::Double(bits),
    }
}
