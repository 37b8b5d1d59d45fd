// The octets of the type and the value that a question is about.
ghost use Rattle.std.specs.Prelude.{◌*◌, ◌≤◌, length};
ghost use Rattle.ask_words.specs.Inner.{WithinSubject};
ghost use Rattle.ask_answers.specs.Inner.{AboutRead};

use ask_words::Subject;
use cdr::Order;

// The order and the number of octets of the type, the same of the value, and the index of its first octet.
#[derive(Clone, Copy)]
pub(crate) struct About {
    pub typed: Order,
    pub type_count: usize,
    pub order: Order,
    pub value_count: usize,
    pub start: u64,
}

// Writes the octets that TYPE and VALUE stand for from the start of the lent memory.
pub(crate) fn read(
    rest: &[u8],
    subject: Subject,
    types: &mut [u8],
    value: &mut [u8],
) -> Option<About>
    requires { (WithinSubject subject rest.now) × (length rest.now ≤ length types.old * 2) × (length rest.now ≤ length value.old * 2) }
    ensures { AboutRead rest.now subject result types.new value.new }
{
    let type_word = subject.typed;
    let value_word = subject.value;
    let type_count = ask_octets::read(&rest[type_word.from..type_word.end], types)?;
    let value_count = ask_octets::read(&rest[value_word.from..value_word.end], value)?;
    Some(About {
        typed: type_word.order,
        type_count,
        order: value_word.order,
        value_count,
        start: subject.start,
    })
}
