// What a visit of a value does that enters nothing: primitives, enums, texts and references to objects; and how items go into a lent
// table. Every function answers for any octets, cursor and table.
#![tactic(auto)]

ghost use Rattle.std.specs.Prelude.{◌≡◌, ℕ, List};
ghost use Rattle.value_meaning.specs.Sinks.{number, taken};
ghost use Rattle.value_meaning.specs.Visit.{leaf_at, enum_at, text_at, count_at, objref_at, inert_at};
ghost use Rattle.value_cursor.specs.Walk.{sink_of, source_of, state_of};

use cdr::Size;
use type_kinds::Inert;
use value_cursor::{Cursor, Mode};

mod primitives;
mod references;
mod rows;

// A number is taken.
fn took(cursor: Cursor, next: usize, value: u64) -> Cursor
    ensures { (m : Mode) (table : List ℕ) (g p n : ℕ) → state_of result table ≡ taken (sink_of m) (number g p n value) next (state_of cursor table) }
{
    Cursor {
        at: next,
        last: value,
        ..cursor
    }
}

// A kind without parameters: null and void are nothing, and the others a number.
pub fn leaf(value: &[u8], mode: Mode, table: &mut [u64], kind: u64, cursor: Cursor) -> Cursor
    ensures { state_of result table.new ≡ leaf_at (sink_of mode) (source_of mode value.now) kind (state_of cursor table.old) }
{
    if kind < type_numbers::SHORT {
        return cursor;
    }
    let size = value_cursor::size_of(kind);
    match value_cursor::number_at(value, mode, cursor.at, size) {
        Some((at, number)) => {
            let next = at + size.octets();
            primitives::leaf_done(table, mode, kind, at, number, took(cursor, next, number))
        }
        None => cursor.refused(refusals::VALUE_ENDS),
    }
}

// An enum with so many names.
fn enumerated(value: &[u8], mode: Mode, table: &mut [u64], names: u64, cursor: Cursor) -> Cursor
    ensures { state_of result table.new ≡ enum_at (sink_of mode) (source_of mode value.now) names (state_of cursor table.old) }
{
    match value_cursor::number_at(value, mode, cursor.at, Size::Four) {
        Some((at, number)) => {
            if names <= number {
                return took(cursor, at + 4, number).refused(refusals::NO_SUCH_NAME);
            }
            rows::put(
                table,
                mode,
                type_numbers::ENUM,
                at,
                number,
                took(cursor, at + 4, number),
            )
        }
        None => cursor.refused(refusals::VALUE_ENDS),
    }
}

// A text with a bound, of which 0 is none.
pub fn text(value: &[u8], mode: Mode, table: &mut [u64], bound: u64, cursor: Cursor) -> Cursor
    ensures { state_of result table.new ≡ text_at (sink_of mode) (source_of mode value.now) bound (state_of cursor table.old) }
{
    match value_cursor::number_at(value, mode, cursor.at, Size::Four) {
        Some((at, number)) => {
            references::text_got(
                value,
                mode,
                table,
                bound,
                number,
                took(cursor, at + 4, number),
            )
        }
        None => cursor.refused(refusals::VALUE_ENDS),
    }
}

// A count with a bound, of which 0 is none.
pub fn count(value: &[u8], mode: Mode, table: &mut [u64], bound: u64, cursor: Cursor) -> Cursor
    ensures { state_of result table.new ≡ count_at (sink_of mode) (source_of mode value.now) bound (state_of cursor table.old) }
{
    match value_cursor::number_at(value, mode, cursor.at, Size::Four) {
        Some((at, number)) => {
            if cdr_text::over_bound(number as usize, bound as usize) {
                return took(cursor, at + 4, number).refused(refusals::OVER_BOUND);
            }
            rows::put(
                table,
                mode,
                type_numbers::SEQUENCE,
                at,
                number,
                took(cursor, at + 4, number),
            )
        }
        None => cursor.refused(refusals::VALUE_ENDS),
    }
}

// A reference to an object: a text, and its profiles.
fn reference(value: &[u8], mode: Mode, table: &mut [u64], cursor: Cursor) -> Cursor
    ensures { state_of result table.new ≡ objref_at (sink_of mode) (source_of mode value.now) (state_of cursor table.old) }
{
    let d = text(value, mode, table, 0, cursor);
    if d.fault != 0 {
        return d;
    }
    references::profiles(value, mode, table, d)
}

// A kind that holds no other.
pub fn inert(value: &[u8], mode: Mode, table: &mut [u64], inert: Inert, cursor: Cursor) -> Cursor
    ensures { state_of result table.new ≡ inert_at (sink_of mode) (source_of mode value.now) inert (state_of cursor table.old) }
{
    match inert {
        Inert::Leaf(kind) => leaf(value, mode, table, kind, cursor),
        Inert::Text(bound) => text(value, mode, table, bound, cursor),
        Inert::Objref => reference(value, mode, table, cursor),
        Inert::Enum(names) => enumerated(value, mode, table, names, cursor),
    }
}
