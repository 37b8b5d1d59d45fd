// Primitives: what is done with their numbers.
ghost use Rattle.std.specs.Prelude.{◌≡◌, ℕ, List};
ghost use Rattle.value_meaning.specs.Visit.{leaf_done};
ghost use Rattle.value_cursor.specs.Walk.{sink_of, source_of, state_of};

use crate::rows;
use value_cursor::{Cursor, Mode};

// A primitive's number is an item, but a boolean above 1.
pub(crate) fn leaf_done(
    table: &mut [u64],
    mode: Mode,
    kind: u64,
    place: usize,
    value: u64,
    cursor: Cursor,
) -> Cursor
    ensures { (v : List ℕ) → state_of result table.new ≡ leaf_done (sink_of mode) (source_of mode v) kind place value
        (state_of cursor table.old) }
{
    if kind == type_numbers::BOOLEAN {
        if 1 < value {
            return cursor.refused(refusals::BAD_BOOLEAN);
        }
        return rows::put(table, mode, kind, place, value, cursor);
    }
    rows::put(
        table,
        mode,
        kind,
        place,
        value_cursor::content_of(kind, value),
        cursor,
    )
}
