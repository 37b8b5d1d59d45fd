// The fields of an encapsulation, whose octets are a slice of their own, index 0 first: numbers, texts, counted octets, and lists of tagged,
// counted octets.
#![tactic(auto)]

ghost use Rattle.std.specs.Prelude.{◌≡◌};
ghost use Rattle.cdr_fields.specs.Encapsulation.{field_of, string_fault, string_of, counted_of};
ghost use Rattle.cdr_fields.specs.Extents.{PartOf, string_at, counted_at};
ghost use Rattle.cdr_fields.specs.Tagged.{tagged_at, skip_tagged, tagged_behind, tagged_list_at};

use cdr::{Index, Order, Size};
use cdr_text::TextFault;

// Why there is no text: its octets break a rule, or end.
#[derive(Clone, Copy)]
pub enum StringFault {
    BadText,
    NoText,
}

impl From<TextFault> for StringFault {
    ghost from_gives = { λ fault result. result ≡ string_fault fault };

    // Why there is no text.
    fn from(fault: TextFault) -> StringFault {
        match fault {
            TextFault::Short => StringFault::NoText,
            TextFault::Empty | TextFault::Over | TextFault::Zeros => StringFault::BadText,
        }
    }
}

// The number of the size at an index of an encapsulation's octets.
pub fn read_field(s: &[u8], at: Index, size: Size, order: Order) -> Option<(u64, Index)>
    ensures { result ≡ field_of s.now at size order }
{
    let (from, value) = cdr::read_number(s, Index::START, at.0, size, order)?;
    Some((value, Index(from + size.octets())))
}

// The length and text at an index of an encapsulation's octets.
pub fn read_string(s: &[u8], at: Index, order: Order) -> Result<(Index, usize), StringFault>
    ensures { result ≡ string_of s.now at order }
{
    let (value, next) = read_field(s, at, Size::Four, order).ok_or(StringFault::NoText)?;
    let length = cdr_text::read_text(s, next.0, value as usize, 0)?;
    Ok((next, length))
}

// The count and octets at an index of an encapsulation's octets.
pub fn read_counted(s: &[u8], at: Index, order: Order) -> Option<(Index, usize)>
    ensures { result ≡ counted_of s.now at order }
{
    let (value, next) = read_field(s, at, Size::Four, order)?;
    let count = value as usize;
    cdr_text::read_run(s, next.0, count)?;
    Some((next, count))
}

// Octets of an encapsulation: the first one's index, and how many.
#[derive(Clone, Copy)]
pub struct Extent {
    pub from: Index,
    pub length: usize,
}

// The caller's own octets of an extent, as far as they are there.
pub fn octets_in<'a>(s: &'a [u8], part: Extent) -> &'a [u8]
    ensures { PartOf s.entry part result }
{
    let from = part.from.0;
    let length = part.length;
    let end = s.len();
    if end <= from {
        return &s[end..end];
    }
    if s.len() - from <= length {
        return &s[from..];
    }
    &s[from..from + length]
}

// The length and text at an index of an encapsulation's octets, and the index after it.
pub fn string_at(s: &[u8], at: Index, order: Order) -> Result<(Extent, Index), StringFault>
    ensures { result ≡ string_at s.now at order }
{
    let (from, length) = read_string(s, at, order)?;
    Ok((Extent { from, length }, Index(from.0 + length + 1)))
}

// The count and octets at an index of an encapsulation's octets, and the index after them.
pub fn counted_at(s: &[u8], at: Index, order: Order) -> Option<(Extent, Index)>
    ensures { result ≡ counted_at s.now at order }
{
    let (from, length) = read_counted(s, at, order)?;
    Some((Extent { from, length }, Index(from.0 + length)))
}

// The tag and the counted octets at an index.
pub fn tagged_at(s: &[u8], at: Index, order: Order) -> Option<(u64, Extent, Index)>
    ensures { result ≡ tagged_at s.now at order }
{
    let (tag, behind) = read_field(s, at, Size::Four, order)?;
    let (octets, next) = counted_at(s, behind, order)?;
    Some((tag, octets, next))
}

// The index after `count` tagged octets.
pub fn skip_tagged(s: &[u8], at: Index, count: u64, order: Order) -> Option<Index>
    ensures { result ≡ skip_tagged s.now order count at }
{
    let mut next = at;
    for _ in 0..count {
        let (_, _, behind) = tagged_at(s, next, order)?;
        next = behind;
    }
    Some(next)
}

// The tagged octets behind `number` others.
pub fn tagged_behind(
    s: &[u8],
    first: Index,
    number: u64,
    order: Order,
) -> Option<(u64, Extent, Index)>
    ensures { result ≡ tagged_behind s.now first number order }
{
    let at = skip_tagged(s, first, number, order)?;
    tagged_at(s, at, order)
}

// A list of tagged octets: how many, and the first one's index.
#[derive(Clone, Copy)]
pub struct TaggedList {
    pub count: u64,
    pub first: Index,
}

// The count at an index, and so many tagged octets behind it.
pub fn tagged_list_at(s: &[u8], at: Index, order: Order) -> Option<(TaggedList, Index)>
    ensures { result ≡ tagged_list_at s.now at order }
{
    let (count, first) = read_field(s, at, Size::Four, order)?;
    let next = skip_tagged(s, first, count, order)?;
    Some((TaggedList { count, first }, next))
}
