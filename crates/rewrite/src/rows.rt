// Items as the rows of a table, and the octets that they are written as.
ghost use Rattle.std.specs.Prelude.{◌≡◌, true, ◌+◌, ◌≤◌, ◌<◌, ◌^◌, length};
ghost use Rattle.std.proofs.lemmas.List.Edits.{sets};
ghost use Rattle.cdr.specs.Align.{octets, behind_gap};
ghost use Rattle.cdr.specs.Limit.{octets_limit};
ghost use Rattle.value_meaning.specs.Sinks.{item};
ghost use Rattle.rewrite_meaning.specs.Written.{target};
ghost use Rattle.rewrite.specs.Inner.{width_of, Octet, head_of, tail_of, item_end, item_octets, up_to, reach, row_of, Sized, Rows};

use cdr::{Index, Order, Size};

// The size of an item's number.
#[tactic(auto, unfolding(crate::specs::Inner::width_of))]
fn width_of(kind: u64) -> Size
    ensures { result ≡ width_of kind }
{
    match kind {
        type_numbers::ENUM | type_numbers::STRING | type_numbers::SEQUENCE | type_numbers::RUN =>
            Size::Four,
        _ => value_cursor::size_of(kind),
    }
}

// Whether an item is an octet by itself: a boolean, a char or an octet.
fn is_octet(kind: u64) -> bool
    ensures { result ≡ true → Octet kind }
{
    matches!(
        kind,
        type_numbers::BOOLEAN | type_numbers::CHAR | type_numbers::OCTET
    )
}

// The number that stands for an item.
#[tactic(auto, unfolding(crate::specs::Inner::head_of, crate::specs::Inner::tail_of))]
fn head_of(kind: u64, content: u64) -> u64
    requires { tail_of kind content ≤ octets_limit }
    ensures { result ≡ head_of kind content }
{
    if kind == type_numbers::STRING {
        content + 1
    } else {
        content
    }
}

// How many octets stand behind an item's number as they are.
#[tactic(auto, unfolding(crate::specs::Inner::tail_of))]
fn tail_of(kind: u64, content: u64) -> usize
    requires { tail_of kind content ≤ octets_limit }
    ensures { result ≡ tail_of kind content }
{
    match kind {
        type_numbers::STRING => content as usize + 1,
        type_numbers::RUN => content as usize,
        _ => 0,
    }
}

// Where a number of a size starts that is written at or after `at`.
fn behind_gap(index: Index, at: usize, size: Size) -> usize
    requires { at < 2 ^ 63 }
    ensures { result ≡ behind_gap index at (octets size) }
{
    // Alignment counts modulo 8, so that no index wraps.
    let i = index.0 % 8 + at;
    at + Index(i).gap(size)
}

// Where an item ends that is written from `at` on.
fn item_end(index: Index, at: usize, kind: u64, content: u64) -> usize
    requires { (at < 2 ^ 63) × (tail_of kind content ≤ octets_limit) }
    ensures { result ≡ item_end index at kind content }
{
    if is_octet(kind) {
        return at + 1;
    }
    let size = width_of(kind);
    behind_gap(index, at, size) + size.octets() + tail_of(kind, content)
}

// How many octets the first n items are written as.
pub(crate) fn count(rows: &[u64], n: usize, index: Index) -> usize
    requires { Sized rows.now n }
    ensures { result ≡ reach index (row_of rows.now) n }
{
    let mut at: usize = 0;
    for k in 0..n {
        at = item_end(index, at, rows[k * 3], rows[k * 3 + 2]);
    }
    at
}

// Writes an item from `at` on, and gives where it ends.
fn write_item(
    value: &[u8],
    out: &mut [u8],
    order: Order,
    index: Index,
    at: usize,
    kind: u64,
    place: usize,
    content: u64,
) -> usize
    requires { (tail_of kind content ≤ octets_limit)
        × (place + tail_of kind content ≤ length value.now)
        × (item_end index at kind content ≤ length out.old) }
    ensures { (result ≡ item_end index at kind content)
        × (out.new ≡ sets out.old at (item_octets (target order index) value.now at (item kind place content))) }
{
    if is_octet(kind) {
        out[at] = (content % 256) as u8;
        return at + 1;
    }
    write_wide(value, out, order, index, at, kind, place, content)
}

// Writes an item with its gap and the octets behind its number.
fn write_wide(
    value: &[u8],
    out: &mut [u8],
    order: Order,
    index: Index,
    at: usize,
    kind: u64,
    place: usize,
    content: u64,
) -> usize
    requires { (tail_of kind content ≤ octets_limit)
        × (place + tail_of kind content ≤ length value.now)
        × (item_end index at kind content ≤ length out.old) }
    ensures { (result ≡ item_end index at kind content)
        × (out.new ≡ sets out.old at (item_octets (target order index) value.now at (item kind place content))) }
{
    let size = width_of(kind);
    let p = behind_gap(index, at, size);
    let end = p + size.octets();
    cdr_write::write_zeros(out, at, p - at);
    cdr_write::write_number(out, p, size, order, head_of(kind, content));
    let n = tail_of(kind, content);
    if n == 0 {
        return end;
    }
    cdr_write::write_octets(out, end, &value[place..place + n]);
    end + n
}

// Writes the first n items from the start of the output on.
pub(crate) fn write(
    value: &[u8],
    rows: &[u64],
    n: usize,
    order: Order,
    index: Index,
    out: &mut [u8],
)
    requires { (Rows value.now rows.now n) × (reach index (row_of rows.now) n ≤ length out.old) }
    ensures { out.new ≡ sets out.old 0 (up_to (target order index) value.now (row_of rows.now) n) }
{
    let mut at: usize = 0;
    for k in 0..n {
        let place = rows[k * 3 + 1] as usize;
        at = write_item(
            value,
            out,
            order,
            index,
            at,
            rows[k * 3],
            place,
            rows[k * 3 + 2],
        );
    }
}
