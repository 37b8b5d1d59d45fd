// What stands in a message at an index, copied to the output at the same index: gaps and reserved octets are zero there.
ghost use Rattle.std.specs.Prelude.{◌-◌, replicate};
ghost use Rattle.cdr_pieces.specs.PartPieces.{Holds};
ghost use Rattle.header_head.specs.Inner.{CopiesReserved, CopiesNumber, CopiesCounted, CopiesTagged, CopiesEntries, CopiesList};
ghost use Rattle.header_head.specs.Inner.{CopiesReference, CopiesKind, CopiesTarget, CopiesPart, CopiesParts};

use cdr::{Index, Order, Size};
use header_layout::HeaderPart;

// The most parts of a header.
const PARTS_MOST: usize = 7;

// The kinds of a target that are no reference.
const KEY_TARGET: u64 = 0;

const PROFILE_TARGET: u64 = 1;

// Zeros up to an index, if it is not behind the other.
pub(crate) fn zeros(at: usize, upto: usize, out: &mut [u8])
    ensures { Holds out.old at (replicate (upto - at) 0) out.new }
{
    cdr_write::write_zeros(out, at, upto.saturating_sub(at));
}

// All parts of a header, from an index on, and the index after them.
pub(crate) fn parts(
    s: &[u8],
    kind: u8,
    order: Order,
    minor: u8,
    from: usize,
    out: &mut [u8],
) -> usize
    ensures { CopiesParts s.now order from out.old result out.new kind minor }
{
    let mut at = from;
    for k in 0..PARTS_MOST {
        let Some(next) = header_layout::part_at(kind, minor, k) else {
            return at;
        };
        at = part(s, next, order, minor, at, out);
    }
    at
}

// A part, and the index after it.
fn part(s: &[u8], part: HeaderPart, order: Order, minor: u8, at: usize, out: &mut [u8]) -> usize
    ensures { CopiesPart s.now order at out.old result out.new minor part }
{
    match part {
        HeaderPart::Contexts => list(s, order, at, out),
        HeaderPart::Id => number(s, Size::Four, order, at, out),
        HeaderPart::Response => number(s, Size::One, order, at, out),
        HeaderPart::Reserved => reserved(s, order, minor, at, out),
        HeaderPart::Key => counted(s, order, at, out),
        HeaderPart::Target => target(s, order, at, out),
        HeaderPart::Operation => counted(s, order, at, out),
        HeaderPart::Principal => counted(s, order, at, out),
        HeaderPart::Status => number(s, Size::Four, order, at, out),
    }
}

// The reserved octets, all zero, and the index after them.
fn reserved(s: &[u8], order: Order, minor: u8, at: usize, out: &mut [u8]) -> usize
    ensures { CopiesReserved s.now order at out.old result out.new minor }
{
    let count = version::reserved_octets(minor);
    match cdr_text::read_run(s, at, count) {
        Some(end) => {
            cdr_write::write_zeros(out, at, count);
            end
        }
        None => at,
    }
}

// A number behind its gap, and the index after it.
fn number(s: &[u8], size: Size, order: Order, at: usize, out: &mut [u8]) -> usize
    ensures { CopiesNumber s.now order at out.old result out.new size }
{
    match cdr_fields::read_field(s, Index(at), size, order) {
        Some((value, next)) => {
            cdr_pieces::put_number(out, at, size, order, value);
            next.0
        }
        None => at,
    }
}

// Octets behind their count, a text's too, and the index after them.
fn counted(s: &[u8], order: Order, at: usize, out: &mut [u8]) -> usize
    ensures { CopiesCounted s.now order at out.old result out.new }
{
    match cdr_fields::counted_at(s, Index(at), order) {
        Some((octets, next)) => {
            let from = number(s, Size::Four, order, at, out);
            cdr_write::write_octets(out, from, cdr_fields::octets_in(s, octets));
            next.0
        }
        None => at,
    }
}

// Tagged octets, and the index after them.
fn tagged(s: &[u8], order: Order, at: usize, out: &mut [u8]) -> usize
    ensures { CopiesTagged s.now order at out.old result out.new }
{
    let behind = number(s, Size::Four, order, at, out);
    counted(s, order, behind, out)
}

// So many tagged octets from an index on, and the index after them.
fn entries(s: &[u8], order: Order, count: u64, from: usize, out: &mut [u8]) -> usize
    ensures { CopiesEntries s.now order from out.old result out.new count }
{
    let mut at = from;
    for _ in 0..count {
        at = tagged(s, order, at, out);
    }
    at
}

// A list of tagged octets behind its count, and the index after it.
fn list(s: &[u8], order: Order, at: usize, out: &mut [u8]) -> usize
    ensures { CopiesList s.now order at out.old result out.new }
{
    match cdr_fields::read_field(s, Index(at), Size::Four, order) {
        Some((value, _)) => {
            let first = number(s, Size::Four, order, at, out);
            entries(s, order, value, first, out)
        }
        None => at,
    }
}

// An index and a reference, and the index after them.
fn reference(s: &[u8], order: Order, at: usize, out: &mut [u8]) -> usize
    ensures { CopiesReference s.now order at out.old result out.new }
{
    let id = number(s, Size::Four, order, at, out);
    let profiles = counted(s, order, id, out);
    list(s, order, profiles, out)
}

// A target, and the index after it.
fn target(s: &[u8], order: Order, at: usize, out: &mut [u8]) -> usize
    ensures { CopiesTarget s.now order at out.old result out.new }
{
    match cdr_fields::read_field(s, Index(at), Size::Two, order) {
        Some((value, _)) => {
            let behind = number(s, Size::Two, order, at, out);
            of_kind(s, value, order, behind, out)
        }
        None => at,
    }
}

// A target of a kind behind it, and the index after it.
fn of_kind(s: &[u8], kind: u64, order: Order, at: usize, out: &mut [u8]) -> usize
    ensures { CopiesKind s.now order at out.old result out.new kind }
{
    match kind {
        KEY_TARGET => counted(s, order, at, out),
        PROFILE_TARGET => tagged(s, order, at, out),
        _ => reference(s, order, at, out),
    }
}
