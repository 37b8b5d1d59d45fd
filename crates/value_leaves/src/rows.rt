// Items, and the rows of a lent table that they go into.
ghost use Rattle.std.specs.Prelude.{◌≡◌, ◌/◌, ◌&&◌, if◌then◌else◌, nat_le};
ghost use Rattle.value_meaning.specs.Sinks.{item, done};
ghost use Rattle.value_cursor.specs.Lent.{row_put};
ghost use Rattle.value_cursor.specs.Walk.{sink_of, state_of};

use value_cursor::{Cursor, Mode};

// Item i in its row, if it has one.
fn put_row(table: &mut [u64], first: usize, i: usize, kind: u64, place: u64, content: u64)
    ensures { table.new ≡ row_put first i (item kind place content) table.old }
{
    if i < first {
        return;
    }
    let row = i - first;
    if table.len() / 3 <= row {
        return;
    }
    table[row * 3] = kind;
    table[row * 3 + 1] = place;
    table[row * 3 + 2] = content;
}

// Item i, where items go into the table.
fn put_in(
    table: &mut [u64],
    fill: bool,
    first: usize,
    i: usize,
    kind: u64,
    place: u64,
    content: u64,
)
    ensures { table.new ≡ (if fill then row_put first i (item kind place content) table.old else table.old) }
{
    if fill {
        put_row(table, first, i, kind, place, content);
    }
}

// Whether there is no room for item i, where room is asked for.
fn is_full(limited: bool, room: usize, i: usize) -> bool
    ensures { result ≡ (limited && nat_le room i) }
{
    limited && room <= i
}

// An item is finished.
pub(crate) fn put(
    table: &mut [u64],
    mode: Mode,
    kind: u64,
    place: usize,
    content: u64,
    cursor: Cursor,
) -> Cursor
    ensures { state_of result table.new ≡ done (sink_of mode) (item kind place content) (state_of cursor table.old) }
{
    let i = cursor.items;
    if is_full(mode.limited, table.len() / 3, i) {
        return cursor.refused(refusals::NO_ITEM_ROOM);
    }
    put_in(table, mode.fill, mode.first, i, kind, place as u64, content);
    Cursor {
        items: i.wrapping_add(1),
        ..cursor
    }
}
