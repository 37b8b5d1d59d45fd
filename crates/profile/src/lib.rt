// An IIOP profile body: order, version, host, port, key, components and extra octets, or 01's refusal, 42 and 60 to 64; and a component by
// number, 69.
#![tactic(auto)]

ghost use Rattle.std.specs.Prelude.{◌≡◌};
ghost use Rattle.profile.specs.Profile.{profile_number, component_number, profile_of, component_of};

use cdr::{Index, Order};
use cdr_fields::Extent;
use profile_parts::Refusal;

mod list;

// The most octets of a body.
const LIMIT: usize = cdr::OCTETS_LIMIT;

// What a body's first octets say.
#[derive(Clone, Copy)]
pub struct Head {
    pub order: Order,
    pub major: u8,
    pub minor: u8,
}

// What a body says. The host is without its final zero; `first` is the index after the components' count, in 1.0 after the key; `extra` is how
// many octets stand after the last component.
#[derive(Clone, Copy)]
pub struct Profile {
    pub head: Head,
    pub host: Extent,
    pub port: u64,
    pub key: Extent,
    pub components: u64,
    pub first: Index,
    pub extra: usize,
}

// 01's number of what the reading of a body answers, 0 for a body that was read.
pub fn profile_number(answer: Result<Profile, Refusal>) -> u32
    ensures { result ≡ profile_number answer }
{
    match answer {
        Ok(_) => 0,
        Err(refusal) => refusal.number(),
    }
}

// 01's number of what is answered about a component, 0 for one that is there.
pub fn component_number(answer: Result<(u64, Extent), Refusal>) -> u32
    ensures { result ≡ component_number answer }
{
    match answer {
        Ok((_, _)) => 0,
        Err(refusal) => refusal.number(),
    }
}

// Reads a body.
pub fn read(s: &[u8]) -> Result<Profile, Refusal>
    ensures { result ≡ profile_of s.now }
{
    if LIMIT < s.len() {
        return Err(Refusal::TooLong);
    }
    let (order, at) = profile_parts::order_at(s, Index::START)?;
    let (major, minor, at) = profile_parts::version_at(s, at)?;
    let (host, at) = profile_parts::host_at(s, at, order)?;
    let (port, at) = profile_parts::port_at(s, at, order)?;
    let (key, at) = profile_parts::key_at(s, at, order)?;
    let (components, first, extra) = list::list_at(s, at, minor, order)?;
    Ok(Profile {
        head: Head {
            order,
            major,
            minor,
        },
        host,
        port,
        key,
        components,
        first,
        extra,
    })
}

// The component of a body that has a number, the first one 0.
pub fn component(s: &[u8], number: u64) -> Result<(u64, Extent), Refusal>
    ensures { result ≡ component_of s.now number }
{
    let profile = read(s)?;
    if profile.components <= number {
        return Err(Refusal::NoSuchComponent);
    }
    let (tag, octets, _) = list::component_from(s, profile.first, number, profile.head.order)?;
    Ok((tag, octets))
}
