// Where a walk over a value is, and the primitives' sizes, numbers and contents. Every function answers for any octets and cursor.
#![tactic(auto)]

ghost use Rattle.std.specs.Prelude.{◌≡◌, ℕ, List};
ghost use Rattle.cdr.specs.Number.{read_of};
ghost use Rattle.value_meaning.specs.Sinks.{failed, begun};
ghost use Rattle.value_meaning.specs.Visit.{size_of, content_of};
ghost use Rattle.value_cursor.specs.Walk.{sink_of, state_of, cursor_start};

use cdr::{Index, Order, Size};

// What holds of a whole walk: order and starting index of the value; whether no more items are taken than the table has room for, whether
// they go into it, and the number of the item that goes first.
#[derive(Clone, Copy)]
pub struct Mode {
    pub order: Order,
    pub start: Index,
    pub limited: bool,
    pub fill: bool,
    pub first: usize,
}

// Where a walk is: the next octet, visits begun, items finished, 01's number of the refusal or 0, and the number that was taken last.
#[derive(Clone, Copy)]
pub struct Cursor {
    pub at: usize,
    pub visits: u64,
    pub items: usize,
    pub fault: u32,
    pub last: u64,
}

impl Cursor {
    // Before the first octet.
    pub fn start() -> Cursor
        ensures { result ≡ cursor_start }
    {
        Cursor {
            at: 0,
            visits: 0,
            items: 0,
            fault: 0,
            last: 0,
        }
    }

    // The walk ends with a refusal.
    pub fn refused(self, number: u32) -> Cursor
        ensures { (table : List ℕ) → state_of result table ≡ failed number (state_of self table) }
    {
        Cursor {
            fault: number,
            ..self
        }
    }

    // A visit begins.
    pub fn visit(self) -> Cursor
        ensures { (m : Mode) (table : List ℕ) → state_of result table ≡ begun (sink_of m) (state_of self table) }
    {
        Cursor {
            visits: self.visits.wrapping_add(1),
            ..self
        }
    }
}

// The number of a size that starts at or after an octet.
pub fn number_at(value: &[u8], mode: Mode, at: usize, size: Size) -> Option<(usize, u64)>
    ensures { result ≡ read_of value.now mode.start at size mode.order }
{
    cdr::read_number(value, mode.start, at, size, mode.order)
}

// The size of a primitive.
#[tactic(auto, unfolding(value_meaning::specs::Visit::size_of))]
pub fn size_of(kind: u64) -> Size
    ensures { result ≡ size_of kind }
{
    match kind {
        type_numbers::SHORT | type_numbers::USHORT => Size::Two,
        type_numbers::LONG | type_numbers::ULONG | type_numbers::FLOAT => Size::Four,
        type_numbers::DOUBLE | type_numbers::LONG_LONG | type_numbers::UNSIGNED_LONG_LONG =>
            Size::Eight,
        _ => Size::One,
    }
}

// The content of a primitive.
#[tactic(auto, unfolding(value_meaning::specs::Visit::content_of))]
pub fn content_of(kind: u64, value: u64) -> u64
    ensures { result ≡ content_of kind value }
{
    if value_items::is_signed(kind) {
        cdr::sign_extended(size_of(kind), value)
    } else {
        value
    }
}
