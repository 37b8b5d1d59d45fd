// Texts behind their lengths, and the profiles of references to objects.
ghost use Rattle.std.specs.Prelude.{◌≡◌, ℕ, List};
ghost use Rattle.value_meaning.specs.Sinks.{run, repeats, taken};
ghost use Rattle.value_meaning.specs.Visit.{text_got, tag_at, run_got, run_at, profile_at, profiles_at};
ghost use Rattle.value_cursor.specs.Walk.{sink_of, source_of, state_of};

use crate::rows;
use cdr::Size;
use cdr_text::TextFault;
use value_cursor::{Cursor, Mode};

// Octets are taken as they are.
fn passed(cursor: Cursor, next: usize) -> Cursor
    ensures { (m : Mode) (table : List ℕ) (p : ℕ) (l : List ℕ) → state_of result table ≡ taken (sink_of m) (run p l) next (state_of cursor table) }
{
    Cursor { at: next, ..cursor }
}

// A text of so many octets, its final zero among them.
pub(crate) fn text_got(
    value: &[u8],
    mode: Mode,
    table: &mut [u64],
    bound: u64,
    length: u64,
    cursor: Cursor,
) -> Cursor
    ensures { (p : ℕ) → state_of result table.new ≡ text_got (sink_of mode) (source_of mode value.now) bound p length
        (state_of cursor table.old) }
{
    let at = cursor.at;
    match cdr_text::read_text(value, at, length as usize, bound as usize) {
        Ok(n) => {
            let next = at + length as usize;
            rows::put(
                table,
                mode,
                type_numbers::STRING,
                at,
                n as u64,
                passed(cursor, next),
            )
        }
        Err(TextFault::Empty) => cursor.refused(refusals::BAD_VALUE_TEXT),
        Err(TextFault::Over) => cursor.refused(refusals::OVER_BOUND),
        Err(TextFault::Short) => cursor.refused(refusals::VALUE_ENDS),
        Err(TextFault::Zeros) => {
            let next = at + length as usize;
            passed(cursor, next).refused(refusals::BAD_VALUE_TEXT)
        }
    }
}

// The tag of a profile.
fn tag(value: &[u8], mode: Mode, table: &mut [u64], cursor: Cursor) -> Cursor
    ensures { state_of result table.new ≡ tag_at (sink_of mode) (source_of mode value.now) (state_of cursor table.old) }
{
    match value_cursor::number_at(value, mode, cursor.at, Size::Four) {
        Some((at, number)) => rows::put(
            table,
            mode,
            type_numbers::ULONG,
            at,
            number,
            crate::took(cursor, at + 4, number),
        ),
        None => cursor.refused(refusals::VALUE_ENDS),
    }
}

// So many octets as they are.
fn run_got(value: &[u8], mode: Mode, table: &mut [u64], count: u64, cursor: Cursor) -> Cursor
    ensures { (p : ℕ) → state_of result table.new ≡ run_got (sink_of mode) (source_of mode value.now) p count
        (state_of cursor table.old) }
{
    let at = cursor.at;
    match cdr_text::read_run(value, at, count as usize) {
        Some(end) => rows::put(
            table,
            mode,
            type_numbers::RUN,
            at,
            count,
            passed(cursor, end),
        ),
        None => cursor.refused(refusals::VALUE_ENDS),
    }
}

// Octets behind their count.
fn counted_run(value: &[u8], mode: Mode, table: &mut [u64], cursor: Cursor) -> Cursor
    ensures { state_of result table.new ≡ run_at (sink_of mode) (source_of mode value.now) (state_of cursor table.old) }
{
    match value_cursor::number_at(value, mode, cursor.at, Size::Four) {
        Some((at, number)) => run_got(
            value,
            mode,
            table,
            number,
            crate::took(cursor, at + 4, number),
        ),
        None => cursor.refused(refusals::VALUE_ENDS),
    }
}

// A profile: its tag, and its octets.
fn profile(value: &[u8], mode: Mode, table: &mut [u64], cursor: Cursor) -> Cursor
    ensures { state_of result table.new ≡ profile_at (sink_of mode) (source_of mode value.now) (state_of cursor table.old) }
{
    let d = tag(value, mode, table, cursor);
    if d.fault != 0 {
        return d;
    }
    counted_run(value, mode, table, d)
}

// So many profiles.
fn profile_list(value: &[u8], mode: Mode, table: &mut [u64], count: u64, cursor: Cursor) -> Cursor
    ensures { state_of result table.new
        ≡ repeats (profile_at (sink_of mode) (source_of mode value.now)) count (state_of cursor table.old) }
{
    let mut d = cursor;
    for _ in 0..count {
        d = profile(value, mode, table, d);
        if d.fault != 0 {
            return d;
        }
    }
    d
}

// The profiles behind their count.
pub(crate) fn profiles(value: &[u8], mode: Mode, table: &mut [u64], cursor: Cursor) -> Cursor
    ensures { state_of result table.new ≡ profiles_at (sink_of mode) (source_of mode value.now) (state_of cursor table.old) }
{
    let d = crate::count(value, mode, table, 0, cursor);
    if d.fault != 0 {
        return d;
    }
    profile_list(value, mode, table, d.last, d)
}
