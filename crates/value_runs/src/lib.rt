// Visits of one kind without parameters, one behind the other: at once where the numbers stand in a row, else one by one. `leaves`
// answers for any octets, cursor and table.
#![tactic(auto)]

ghost use Rattle.std.specs.Prelude.{◌≡◌, ℕ, ◌+◌, ◌<◌, ◌≤◌, true, false, ◌&&◌, List, length, nat_lt};
ghost use Rattle.cdr.specs.Align.{octets, behind_gap};
ghost use Rattle.cdr.specs.Number.{number_at};
ghost use Rattle.value_meaning.specs.Sinks.{repeats};
ghost use Rattle.value_meaning.specs.Value.{room_in};
ghost use Rattle.value_cursor.specs.Lent.{set3};
ghost use Rattle.value_cursor.specs.Walk.{state_of, leaf_visit};
ghost use Rattle.value_runs.specs.Inner.{Plain, Row, Into, Fits, OctetsInto, value_of};

use cdr::{Index, Order, Size};
use value_cursor::{Cursor, Mode};

// The most visits that go at once.
const MOST: u64 = cdr::OCTETS_LIMIT as u64;

// So many visits of a kind without parameters.
pub fn leaves(
    value: &[u8],
    mode: Mode,
    table: &mut [u64],
    kind: u64,
    count: u64,
    cursor: Cursor,
) -> Cursor
    ensures { state_of result table.new ≡ repeats (leaf_visit mode value.now kind) count (state_of cursor table.old) }
{
    if is_plain(kind, count, cursor.fault) {
        return together(value, mode, table, kind, count as usize, cursor);
    }
    each(value, mode, table, kind, count, cursor)
}

// Three numbers of the table.
fn store(table: &mut [u64], j: usize, a: u64, b: u64, c: u64)
    requires { j + 2 < length table.old }
    ensures { table.new ≡ set3 table.old j a b c }
{
    table[j] = a;
    table[j + 1] = b;
    table[j + 2] = c;
}

// So many visits, one by one.
fn each(
    value: &[u8],
    mode: Mode,
    table: &mut [u64],
    kind: u64,
    count: u64,
    cursor: Cursor,
) -> Cursor
    ensures { state_of result table.new ≡ repeats (leaf_visit mode value.now kind) count (state_of cursor table.old) }
{
    let mut d = cursor;
    for _ in 0..count {
        d = value_leaves::leaf(value, mode, table, kind, d.visit());
        if d.fault != 0 {
            return d;
        }
    }
    d
}

// Whether so many visits may go at once: of numbers that are not tested, enough to gain by it and few enough that no place wraps, and
// nothing is refused yet.
fn is_plain(kind: u64, count: u64, fault: u32) -> bool
    ensures { result ≡ true → Plain kind count fault }
{
    let untested = type_numbers::SHORT <= kind && kind != type_numbers::BOOLEAN;
    untested && 4 <= count && count <= MOST && fault == 0
}

// Whether there is no room for so many items more, where room is asked for.
fn lacks_room(limited: bool, room: usize, items: usize, n: usize) -> bool
    ensures { result ≡ (limited && nat_lt room (items + n)) }
{
    limited && (room < items || room - items < n)
}

// Numbers in a row from p on that go into no table.
fn passed_over(
    value: &[u8],
    mode: Mode,
    kind: u64,
    size: Size,
    n: usize,
    p: usize,
    cursor: Cursor,
) -> Cursor
    requires { (Row value.now mode kind size n p cursor n) × (mode.fill ≡ false) }
    ensures { (table : List ℕ) → (mode.limited && nat_lt (room_in table) (cursor.items + n)) ≡ false → state_of result table ≡ repeats
        (leaf_visit mode value.now kind) n (state_of cursor table) }
{
    let w = size.octets();
    match value_cursor::number_at(value, mode, p + (n - 1) * w, size) {
        Some((at, number)) => Cursor {
            at: at + w,
            visits: cursor.visits.wrapping_add(n as u64),
            items: cursor.items.wrapping_add(n),
            last: number,
            ..cursor
        },
        None => cursor,
    }
}

// Octets that go into the table as they are.
fn octets_in(value: &[u8], table: &mut [u64], kind: u64, n: usize, cursor: Cursor) -> Cursor
    requires { Fits value.now n cursor table.old }
    ensures { (m : Mode) → OctetsInto m kind n cursor → state_of result table.new ≡ repeats (leaf_visit m value.now kind) n
        (state_of cursor table.old) }
{
    let at = cursor.at;
    let row = cursor.items;
    let mut last = cursor.last;
    for k in 0..n {
        last = u64::from(value[at + k]);
        store(table, (row + k) * 3, kind, (at + k) as u64, last);
    }
    Cursor {
        at: at + n,
        visits: cursor.visits.wrapping_add(n as u64),
        items: row + n,
        last,
        ..cursor
    }
}

// The number that was read, or 0.
fn value_of(r: Option<(usize, u64)>) -> u64
    ensures { result ≡ value_of r }
{
    match r {
        Some((_, value)) => value,
        None => 0,
    }
}

// The number at an aligned place that is there, by a read of a size that the compiler knows.
fn value_at(value: &[u8], start: Index, at: usize, size: Size, order: Order) -> u64
    requires { (at ≡ behind_gap start at (octets size)) × (at + octets size ≤ length value.now) }
    ensures { result ≡ number_at value.now at (octets size) order }
{
    match size {
        Size::One => value_of(cdr::read_number(value, start, at, Size::One, order)),
        Size::Two => value_of(cdr::read_number(value, start, at, Size::Two, order)),
        Size::Four => value_of(cdr::read_number(value, start, at, Size::Four, order)),
        Size::Eight => value_of(cdr::read_number(value, start, at, Size::Eight, order)),
    }
}

// Numbers in a row from p on that go into the table.
fn numbers_in(
    value: &[u8],
    mode: Mode,
    table: &mut [u64],
    kind: u64,
    size: Size,
    n: usize,
    p: usize,
    cursor: Cursor,
) -> Cursor
    requires { (Row value.now mode kind size n p cursor n) × (Into mode n cursor table.old) }
    ensures { state_of result table.new ≡ repeats (leaf_visit mode value.now kind) n (state_of cursor table.old) }
{
    let w = size.octets();
    let row = cursor.items;
    let mut last = cursor.last;
    for k in 0..n {
        let at = p + k * w;
        last = value_at(value, mode.start, at, size, mode.order);
        store(
            table,
            (row + k) * 3,
            kind,
            at as u64,
            value_cursor::content_of(kind, last),
        );
    }
    Cursor {
        at: p + n * w,
        visits: cursor.visits.wrapping_add(n as u64),
        items: row + n,
        last,
        ..cursor
    }
}

// Numbers in a row from p on, where items go into the table.
fn filled(
    value: &[u8],
    mode: Mode,
    table: &mut [u64],
    kind: u64,
    size: Size,
    n: usize,
    p: usize,
    cursor: Cursor,
) -> Cursor
    requires { (Row value.now mode kind size n p cursor n) × (mode.fill ≡ true) }
    ensures { state_of result table.new ≡ repeats (leaf_visit mode value.now kind) n (state_of cursor table.old) }
{
    if mode.first != 0 {
        return each(value, mode, table, kind, n as u64, cursor);
    }
    if lacks_room(true, table.len() / 3, cursor.items, n) {
        return each(value, mode, table, kind, n as u64, cursor);
    }
    match kind {
        type_numbers::CHAR | type_numbers::OCTET => octets_in(value, table, kind, n, cursor),
        _ => numbers_in(value, mode, table, kind, size, n, p, cursor),
    }
}

// Numbers of which the first stands at p.
fn from(
    value: &[u8],
    mode: Mode,
    table: &mut [u64],
    kind: u64,
    size: Size,
    n: usize,
    p: usize,
    cursor: Cursor,
) -> Cursor
    requires { Row value.now mode kind size n p cursor 1 }
    ensures { state_of result table.new ≡ repeats (leaf_visit mode value.now kind) n (state_of cursor table.old) }
{
    if value.len() - p < n * size.octets() {
        return each(value, mode, table, kind, n as u64, cursor);
    }
    if mode.fill {
        return filled(value, mode, table, kind, size, n, p, cursor);
    }
    if lacks_room(mode.limited, table.len() / 3, cursor.items, n) {
        return each(value, mode, table, kind, n as u64, cursor);
    }
    passed_over(value, mode, kind, size, n, p, cursor)
}

// Plain visits: at once if all numbers are there.
fn together(
    value: &[u8],
    mode: Mode,
    table: &mut [u64],
    kind: u64,
    n: usize,
    cursor: Cursor,
) -> Cursor
    requires { Plain kind n cursor.fault }
    ensures { state_of result table.new ≡ repeats (leaf_visit mode value.now kind) n (state_of cursor table.old) }
{
    let size = value_cursor::size_of(kind);
    match value_cursor::number_at(value, mode, cursor.at, size) {
        Some((at, _)) => from(value, mode, table, kind, size, n, at, cursor),
        None => each(value, mode, table, kind, n as u64, cursor),
    }
}
