// The words of a question, one after the other, each from its place in the line.
ghost use Rattle.std.specs.Prelude.{◌≡◌};
ghost use Rattle.ask_words.specs.Fields.{number_first};
ghost use Rattle.ask_words.specs.Inner.{WordAt, left, OrderRead, CodedRead, number_found, SubjectRead};

use crate::{Coded, Subject};
use cdr::Order;

// The word at a place. Behind the last word there is a place more than the line has characters.
pub(crate) fn word_at(line: &[u8], from: usize) -> Option<usize>
    ensures { WordAt line.now from result }
{
    if line.len() < from {
        return None;
    }
    Some(from + crate::first_end(&line[from..]))
}

// An order at a place.
pub(crate) fn order_at(line: &[u8], from: usize) -> Option<(Order, usize)>
    ensures { OrderRead line.now from result }
{
    let end = word_at(line, from)?;
    let order = crate::read_order(&line[from..end])?;
    Some((order, end + 1))
}

// An ORDER at a place and the word behind it.
fn coded_at(line: &[u8], from: usize) -> Option<Coded>
    ensures { CodedRead line.now from result }
{
    let (order, next) = order_at(line, from)?;
    let end = word_at(line, next)?;
    Some(Coded {
        order,
        from: next,
        end,
    })
}

// A number at a place.
pub(crate) fn number_at(line: &[u8], from: usize) -> Option<(u64, usize)>
    ensures { number_found result line.now ≡ number_first (left line.now from) }
{
    let end = word_at(line, from)?;
    let number = decimals::read_decimal(&line[from..end])?;
    Some((number, end + 1))
}

// The words of a value, from the start of a line.
pub(crate) fn subject_first(line: &[u8]) -> Option<(Subject, usize)>
    ensures { SubjectRead line.now result }
{
    let typed = coded_at(line, 0)?;
    let value = coded_at(line, typed.end + 1)?;
    let (start, next) = number_at(line, value.end + 1)?;
    Some((
        Subject {
            typed,
            value,
            start,
        },
        next,
    ))
}
