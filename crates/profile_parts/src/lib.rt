// The parts of an IIOP profile body, an encapsulation: each is read where it stands. Every function answers for any octets and index.
#![tactic(auto)]

ghost use Rattle.std.specs.Prelude.{◌≡◌};
ghost use Rattle.profile_parts.specs.Parts.{profile_refusal_number, order_part_at, minor_part_at, version_at, host_refusal, host_at};
ghost use Rattle.profile_parts.specs.Parts.{number_part_at, port_at, key_at, component_count_at, component_at};

use cdr::{Index, Order, Size};
use cdr_fields::{Extent, StringFault};

// Why a profile body is refused, or a component of it is not there.
#[derive(Clone, Copy)]
pub enum Refusal {
    TooLong,
    Ends,
    NoSuchOrder,
    NoSuchVersion,
    BadHost,
    AfterKey,
    NoSuchComponent,
}

impl Refusal {
    // 01's number.
    pub fn number(self) -> u32
        ensures { result ≡ profile_refusal_number self }
    {
        match self {
            Refusal::TooLong => refusals::TOO_LONG,
            Refusal::Ends => refusals::PROFILE_ENDS,
            Refusal::NoSuchOrder => refusals::NO_SUCH_ORDER,
            Refusal::NoSuchVersion => refusals::NO_SUCH_PROFILE_VERSION,
            Refusal::BadHost => refusals::BAD_HOST,
            Refusal::AfterKey => refusals::AFTER_KEY,
            Refusal::NoSuchComponent => refusals::NO_SUCH_COMPONENT,
        }
    }
}

impl From<StringFault> for Refusal {
    ghost from_gives = { λ fault result. result ≡ host_refusal fault };

    // Why there is no host.
    fn from(fault: StringFault) -> Refusal {
        match fault {
            StringFault::BadText => Refusal::BadHost,
            StringFault::NoText => Refusal::Ends,
        }
    }
}

// The order that the octet at an index names.
pub fn order_at(s: &[u8], at: Index) -> Result<(Order, Index), Refusal>
    ensures { result ≡ order_part_at s.now at }
{
    let i = at.0;
    let end = cdr_text::read_run(s, i, 1).ok_or(Refusal::Ends)?;
    let order = Order::named(s[i]).ok_or(Refusal::NoSuchOrder)?;
    Ok((order, Index(end)))
}

// The version at an index; the major is judged before the minor is read.
pub fn version_at(s: &[u8], at: Index) -> Result<(u8, u8, Index), Refusal>
    ensures { result ≡ version_at s.now at }
{
    let first = at.0;
    cdr_text::read_run(s, first, 1).ok_or(Refusal::Ends)?;
    let major = s[first];
    if version::major_exists(major) {
        minor_at(s, major, Index(first + 1))
    } else {
        Err(Refusal::NoSuchVersion)
    }
}

// The version whose minor stands at an index.
fn minor_at(s: &[u8], major: u8, at: Index) -> Result<(u8, u8, Index), Refusal>
    ensures { result ≡ minor_part_at s.now major at }
{
    let i = at.0;
    let end = cdr_text::read_run(s, i, 1).ok_or(Refusal::Ends)?;
    let minor = s[i];
    if version::minor_exists(minor) {
        Ok((major, minor, Index(end)))
    } else {
        Err(Refusal::NoSuchVersion)
    }
}

// The host at an index, without its final zero.
pub fn host_at(s: &[u8], at: Index, order: Order) -> Result<(Extent, Index), Refusal>
    ensures { result ≡ host_at s.now at order }
{
    Ok(cdr_fields::string_at(s, at, order)?)
}

// The port at an index.
pub fn port_at(s: &[u8], at: Index, order: Order) -> Result<(u64, Index), Refusal>
    ensures { result ≡ port_at s.now at order }
{
    number_at(s, at, Size::Two, order)
}

// The key at an index.
pub fn key_at(s: &[u8], at: Index, order: Order) -> Result<(Extent, Index), Refusal>
    ensures { result ≡ key_at s.now at order }
{
    cdr_fields::counted_at(s, at, order).ok_or(Refusal::Ends)
}

// The number of components that follow, at an index.
pub fn count_at(s: &[u8], at: Index, order: Order) -> Result<(u64, Index), Refusal>
    ensures { result ≡ component_count_at s.now at order }
{
    number_at(s, at, Size::Four, order)
}

// A number of a size, at an index.
fn number_at(s: &[u8], at: Index, size: Size, order: Order) -> Result<(u64, Index), Refusal>
    ensures { result ≡ number_part_at s.now at size order }
{
    cdr_fields::read_field(s, at, size, order).ok_or(Refusal::Ends)
}

// The component at an index.
pub fn component_at(s: &[u8], at: Index, order: Order) -> Result<(u64, Extent, Index), Refusal>
    ensures { result ≡ component_at s.now at order }
{
    cdr_fields::tagged_at(s, at, order).ok_or(Refusal::Ends)
}
