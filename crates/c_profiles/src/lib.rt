// The C interface's functions about profile bodies: each answers 01's number, and a refusal leaves all that was lent as it was.
#![tactic(auto)]

ghost use Rattle.std.specs.Prelude.{◌≡◌};
ghost use Rattle.profile.specs.Profile.{profile_row, component_row};
ghost use Rattle.c_profiles.specs.Answers.{ReadsProfileC, FindsComponentC};

use cdr_fields::Extent;
use profile::Profile;

// A profile body read: 0, or 42, or 60 to 64. `numbers` gets order octet, major, minor, the index of the host's first octet and its
// length without its zero, port, the index of the key's first octet and its length, number of components, octets after them.
pub fn haulspar_profile(octets: &[u8], numbers: &mut [u64; 10]) -> u32
    ensures { ReadsProfileC octets.now numbers.old result numbers.new }
{
    match profile::read(octets) {
        Ok(p) => {
            *numbers = profile_row(p);
            0
        }
        Err(refusal) => refusal.number(),
    }
}

// What a body says, as numbers.
fn profile_row(p: Profile) -> [u64; 10]
    ensures { result ≡ profile_row p }
{
    let Profile {
        head,
        host,
        port,
        key,
        components,
        extra,
        ..
    } = p;
    [
        head.order.octet() as u64,
        head.major as u64,
        head.minor as u64,
        host.from.0 as u64,
        host.length as u64,
        port,
        key.from.0 as u64,
        key.length as u64,
        components,
        extra as u64,
    ]
}

// A component of a profile body by its number, the first one 0: 0, or 42, 60 to 64, or 69. `found` gets its tag, the index of
// its octets' first one, and their length.
pub fn haulspar_component(octets: &[u8], number: u64, found: &mut [u64; 3]) -> u32
    ensures { FindsComponentC octets.now number found.old result found.new }
{
    match profile::component(octets, number) {
        Ok((tag, part)) => {
            *found = component_row(tag, part);
            0
        }
        Err(refusal) => refusal.number(),
    }
}

// A component as numbers.
fn component_row(tag: u64, octets: Extent) -> [u64; 3]
    ensures { result ≡ component_row tag octets }
{
    [tag, octets.from.0 as u64, octets.length as u64]
}
