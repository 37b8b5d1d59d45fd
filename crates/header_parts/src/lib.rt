// The parts of a Request or Reply header that have rules of their own: response, status, texts, target, and the place of the body. Indices are
// those of the message, its first octet 0. Every function answers for any octets and index.
#![tactic(auto)]

ghost use Rattle.std.specs.Prelude.{◌≡◌, ◌≤◌};
ghost use Rattle.header_parts.specs.declared.Refusal.TheVariants.{Frame};
ghost use Rattle.header_parts.specs.Parts.{header_refusal_number, header_text_refusal, response_at, status_at, header_text_at, body_place};
ghost use Rattle.header_parts.specs.Targets.{key_target, profile_target, type_id_then, reference_target, target_at};

use cdr::{Index, Order, Size};
use cdr_fields::{Extent, StringFault, TaggedList};

// Why a header is refused, or a part of it is not there, or it is not written back.
#[derive(Clone, Copy)]
pub enum Refusal {
    TooLong,
    Frame(frame::Refusal),
    NoHeader,
    Ends,
    NoSuchResponse,
    NoSuchTarget,
    BadText,
    NoSuchStatus,
    NoSuchPart,
    NoRoom,
}

impl Refusal {
    // The papers' number.
    pub fn number(self) -> u32
        ensures { result ≡ header_refusal_number self }
    {
        match self {
            Refusal::TooLong => refusals::TOO_LONG,
            Refusal::Frame(row) => row.number(),
            Refusal::NoHeader => refusals::NO_HEADER,
            Refusal::Ends => refusals::HEADER_ENDS,
            Refusal::NoSuchResponse => refusals::NO_SUCH_RESPONSE,
            Refusal::NoSuchTarget => refusals::NO_SUCH_TARGET,
            Refusal::BadText => refusals::BAD_OPERATION,
            Refusal::NoSuchStatus => refusals::NO_SUCH_STATUS,
            Refusal::NoSuchPart => refusals::NO_SUCH_COMPONENT,
            Refusal::NoRoom => refusals::NO_HEAD_ROOM,
        }
    }
}

impl From<frame::Refusal> for Refusal {
    ghost from_gives = { λ row result. result ≡ Frame row };

    // A row of the frame's table.
    fn from(row: frame::Refusal) -> Refusal {
        Refusal::Frame(row)
    }
}

impl From<StringFault> for Refusal {
    ghost from_gives = { λ fault result. result ≡ header_text_refusal fault };

    // Why there is no text.
    fn from(fault: StringFault) -> Refusal {
        match fault {
            StringFault::BadText => Refusal::BadText,
            StringFault::NoText => Refusal::Ends,
        }
    }
}

// What a request is addressed to: a key, a profile, or a reference with the index of one of its profiles, which is not compared with their count.
#[derive(Clone, Copy)]
pub enum TargetAddress {
    Key(Extent),
    Profile {
        tag: u64,
        octets: Extent,
    },
    Reference {
        index: u64,
        id: Extent,
        profiles: TaggedList,
    },
}

// The kinds of a target.
const KEY_TARGET: u64 = 0;

const PROFILE_TARGET: u64 = 1;

const REFERENCE_TARGET: u64 = 2;

// The response boolean or flags at an index.
pub fn response_at(s: &[u8], at: Index, order: Order, minor: u8) -> Result<(u64, Index), Refusal>
    ensures { result ≡ response_at s.now at order minor }
{
    let (value, next) = cdr_fields::read_field(s, at, Size::One, order).ok_or(Refusal::Ends)?;
    if version::response_allowed(minor, value) {
        Ok((value, next))
    } else {
        Err(Refusal::NoSuchResponse)
    }
}

// The status at an index.
pub fn status_at(s: &[u8], at: Index, order: Order, minor: u8) -> Result<(u64, Index), Refusal>
    ensures { result ≡ status_at s.now at order minor }
{
    let (value, next) = cdr_fields::read_field(s, at, Size::Four, order).ok_or(Refusal::Ends)?;
    if version::status_exists(minor, value) {
        Ok((value, next))
    } else {
        Err(Refusal::NoSuchStatus)
    }
}

// The operation or the type id at an index.
pub fn text_at(s: &[u8], at: Index, order: Order) -> Result<(Extent, Index), Refusal>
    ensures { result ≡ header_text_at s.now at order }
{
    Ok(cdr_fields::string_at(s, at, order)?)
}

// The target at an index: its kind, then what the kind says.
pub fn target_at(s: &[u8], at: Index, order: Order) -> Result<(TargetAddress, Index), Refusal>
    ensures { result ≡ target_at s.now at order }
{
    let (kind, next) = cdr_fields::read_field(s, at, Size::Two, order).ok_or(Refusal::Ends)?;
    match kind {
        KEY_TARGET => key_target(s, next, order),
        PROFILE_TARGET => profile_target(s, next, order),
        REFERENCE_TARGET => reference_target(s, next, order),
        _ => Err(Refusal::NoSuchTarget),
    }
}

// A key at an index, as a target.
pub fn key_target(s: &[u8], at: Index, order: Order) -> Result<(TargetAddress, Index), Refusal>
    ensures { result ≡ key_target s.now at order }
{
    let (octets, next) = cdr_fields::counted_at(s, at, order).ok_or(Refusal::Ends)?;
    Ok((TargetAddress::Key(octets), next))
}

// A profile at an index, as a target.
fn profile_target(s: &[u8], at: Index, order: Order) -> Result<(TargetAddress, Index), Refusal>
    ensures { result ≡ profile_target s.now at order }
{
    let (tag, octets, next) = cdr_fields::tagged_at(s, at, order).ok_or(Refusal::Ends)?;
    Ok((TargetAddress::Profile { tag, octets }, next))
}

// An index and a reference, as a target.
fn reference_target(s: &[u8], at: Index, order: Order) -> Result<(TargetAddress, Index), Refusal>
    ensures { result ≡ reference_target s.now at order }
{
    let (index, next) = cdr_fields::read_field(s, at, Size::Four, order).ok_or(Refusal::Ends)?;
    type_id_then(s, index, next, order)
}

// A reference behind its index: the type id, then the profiles.
fn type_id_then(
    s: &[u8],
    index: u64,
    at: Index,
    order: Order,
) -> Result<(TargetAddress, Index), Refusal>
    ensures { result ≡ type_id_then s.now index at order }
{
    let (id, next) = text_at(s, at, order)?;
    let (profiles, behind) = cdr_fields::tagged_list_at(s, next, order).ok_or(Refusal::Ends)?;
    let target = TargetAddress::Reference {
        index,
        id,
        profiles,
    };
    Ok((target, behind))
}

// Where the body of a message of so many octets begins, behind a header that ends at an index: an empty one at the message's end.
pub fn body_at(length: usize, end: usize, minor: u8) -> Result<usize, Refusal>
    ensures { result ≡ body_place length end minor }
{
    if length <= end {
        return Ok(length);
    }
    if version::body_in_eights(minor) {
        let gap = Index(end).gap(Size::Eight);
        if length - end < gap {
            return Err(Refusal::Ends);
        }
        return Ok(end + gap);
    }
    Ok(end)
}
