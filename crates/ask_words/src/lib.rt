// The words of a line: where they end, whether two are the same, the orders and numbers that they name, and the words of the questions about
// a value or a component.
#![tactic(auto)]

ghost use Rattle.std.specs.Prelude.{◌≡◌};
ghost use Rattle.ask_words.specs.Words.{same_word, order_word};
ghost use Rattle.ask_words.specs.Found.{FirstWord};
ghost use Rattle.ask_words.specs.Inner.{FieldsRead, RewriteRead, NumberedRead};

use cdr::Order;

mod places;

const SPACE: u8 = b' ';

// An ORDER, and the place and the end of the word behind it.
#[derive(Clone, Copy)]
pub struct Coded {
    pub order: Order,
    pub from: usize,
    pub end: usize,
}

// The value that is asked about: ORDER TYPE, ORDER VALUE, and START.
#[derive(Clone, Copy)]
pub struct Subject {
    pub typed: Coded,
    pub value: Coded,
    pub start: u64,
}

// The words behind `value` or `item`: those of a value, and ROOM or NUMBER.
#[derive(Clone, Copy)]
pub struct Asked {
    pub subject: Subject,
    pub number: u64,
}

// The words behind `rewrite`: those of a value, and ORDER START ROOM.
#[derive(Clone, Copy)]
pub struct Chosen {
    pub subject: Subject,
    pub order: Order,
    pub index: u64,
    pub room: u64,
}

// Where the first word ends: at the first space, or the end.
pub fn first_end(line: &[u8]) -> usize
    ensures { FirstWord line.now result }
{
    line.iter().position(|&c| c == SPACE).unwrap_or(line.len())
}

// Whether two words have the same characters.
#[tactic(auto, using(crate::proofs::FirstWordEnds::compared))]
pub fn same(a: &[u8], b: &[u8]) -> bool
    ensures { result ≡ same_word a.now b.now }
{
    a == b
}

// The order that a word names.
pub fn read_order(word: &[u8]) -> Option<Order>
    ensures { result ≡ order_word word.now }
{
    if same(word, b"big") {
        return Some(Order::Big);
    }
    if same(word, b"little") {
        return Some(Order::Little);
    }
    None
}

// The words behind `value` or `item`, where a line has these and no more.
pub fn read_fields(line: &[u8]) -> Option<Asked>
    ensures { FieldsRead line.now result }
{
    let (subject, next) = places::subject_first(line)?;
    let (number, last) = places::number_at(line, next)?;
    if last <= line.len() {
        return None;
    }
    Some(Asked { subject, number })
}

// The words behind `rewrite`, where a line has these and no more.
pub fn read_rewrite(line: &[u8]) -> Option<Chosen>
    ensures { RewriteRead line.now result }
{
    let (subject, next) = places::subject_first(line)?;
    let (order, behind) = places::order_at(line, next)?;
    let (index, later) = places::number_at(line, behind)?;
    let (room, end) = places::number_at(line, later)?;
    if end <= line.len() {
        return None;
    }
    Some(Chosen {
        subject,
        order,
        index,
        room,
    })
}

// The words behind `component`, where a line has these and no more.
pub fn read_numbered(line: &[u8]) -> Option<(usize, u64)>
    ensures { NumberedRead line.now result }
{
    let end = places::word_at(line, 0)?;
    let (number, next) = places::number_at(line, end + 1)?;
    if next <= line.len() {
        return None;
    }
    Some((end, number))
}
