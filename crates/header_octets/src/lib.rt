// The target, the operation, the principal, a context and a profile of a message's header, each as the caller's own octets.
#![tactic(auto)]

ghost use Rattle.std.specs.Prelude.{◌≡◌};
ghost use Rattle.cdr_fields.specs.Extents.{PartOf};
ghost use Rattle.header_octets.specs.Octets.{target_part, target_extent, operation_extent, principal_extent, context_extent, profile_extent};

use cdr_fields::Extent;
use header::MessageHeader;
use header_parts::TargetAddress;

// The octets that a request is addressed to: the key, the profile's octets, or the reference's type id without its final zero; none of a reply or a
// refused message.
pub fn target<'a>(s: &'a [u8]) -> &'a [u8]
    ensures { PartOf s.entry (target_extent s.now) result }
{
    match header::read(s) {
        Ok(MessageHeader::Called(request)) => cdr_fields::octets_in(s, target_part(request.target)),
        Ok(MessageHeader::Answered(_)) => &s[0..0], // no target
        Err(_) => &s[0..0],
    }
}

// The octets of a target.
fn target_part(target: TargetAddress) -> Extent
    ensures { result ≡ target_part target }
{
    match target {
        TargetAddress::Key(octets) | TargetAddress::Profile { octets, .. } => octets,
        TargetAddress::Reference { id, .. } => id,
    }
}

// The operation of a request, without its final zero; none of a reply or a refused message.
pub fn operation<'a>(s: &'a [u8]) -> &'a [u8]
    ensures { PartOf s.entry (operation_extent s.now) result }
{
    match header::read(s) {
        Ok(MessageHeader::Called(request)) => cdr_fields::octets_in(s, request.operation),
        Ok(MessageHeader::Answered(_)) => &s[0..0], // no operation
        Err(_) => &s[0..0],
    }
}

// The principal of a request before 1.2; none of another message.
pub fn principal<'a>(s: &'a [u8]) -> &'a [u8]
    ensures { PartOf s.entry (principal_extent s.now) result }
{
    match header::read(s) {
        Ok(MessageHeader::Called(request)) => cdr_fields::octets_in(s, request.principal),
        Ok(MessageHeader::Answered(_)) => &s[0..0], // no principal
        Err(_) => &s[0..0],
    }
}

// The octets of the context that has a number; none where it is refused.
pub fn context<'a>(s: &'a [u8], number: u64) -> &'a [u8]
    ensures { PartOf s.entry (context_extent s.now number) result }
{
    match header::context(s, number) {
        Ok((_, octets)) => cdr_fields::octets_in(s, octets),
        Err(_) => &s[0..0],
    }
}

// The octets of the profile that has a number, of the reference that a request is addressed to; none where it is refused.
pub fn target_profile<'a>(s: &'a [u8], number: u64) -> &'a [u8]
    ensures { PartOf s.entry (profile_extent s.now number) result }
{
    match header::target_profile(s, number) {
        Ok((_, octets)) => cdr_fields::octets_in(s, octets),
        Err(_) => &s[0..0],
    }
}
