// The rules of the table, as tests on numbers.
ghost use Rattle.std.specs.Prelude.{◌≡◌};
ghost use Rattle.frame.specs.Messages.{version_exists, is_request_or_reply, is_bare, has_request_id};
ghost use Rattle.frame.specs.Frames.{size_allowed, fragment_allowed, eights_allowed};

use crate::{CANCEL_REQUEST, FRAGMENT, HEADER_SIZE};

// The octets of a request id.
const ID_SIZE: u32 = 4;

// Whether the version is one of GIOP's that are read here.
#[tactic(auto, unfolding(crate::specs::Messages::version_exists))]
pub(crate) fn version_exists(major: u8, minor: u8) -> bool
    ensures { result ≡ version_exists major minor }
{
    version::major_exists(major) && version::minor_exists(minor)
}

// Whether the type is Request, Reply, LocateRequest or LocateReply.
#[tactic(auto, unfolding(crate::specs::Messages::is_request_or_reply))]
fn is_request_or_reply(kind: u8) -> bool
    ensures { result ≡ is_request_or_reply kind }
{
    matches!(kind, 0..=1 | 3..=4)
}

// Whether the message has its request id in its first four body octets.
#[tactic(auto, unfolding(crate::specs::Messages::has_request_id))]
pub(crate) fn has_request_id(minor: u8, kind: u8) -> bool
    ensures { result ≡ has_request_id minor kind }
{
    kind == CANCEL_REQUEST
        || version::body_starts_with_id(minor) && (is_request_or_reply(kind) || kind == FRAGMENT)
}

// Whether a message of this type may have this size.
#[tactic(auto, unfolding(crate::specs::Frames::size_allowed))]
pub(crate) fn size_allowed(minor: u8, kind: u8, size: u32) -> bool
    ensures { result ≡ size_allowed minor kind size }
{
    if is_request_or_reply(kind) {
        let least = if version::body_starts_with_id(minor) {
            ID_SIZE
        } else {
            1
        };
        return least <= size;
    }
    match kind {
        FRAGMENT => ID_SIZE <= size,
        CANCEL_REQUEST => size == ID_SIZE,
        _ => size == 0,
    }
}

// Whether the type is CloseConnection or MessageError.
#[tactic(auto, unfolding(crate::specs::Messages::is_bare))]
fn is_bare(kind: u8) -> bool
    ensures { result ≡ is_bare kind }
{
    matches!(kind, 5..=6)
}

// Whether a message of this type may be a fragment, or have fragments after it.
#[tactic(auto, unfolding(crate::specs::Frames::fragment_allowed))]
pub(crate) fn fragment_allowed(minor: u8, kind: u8, more: bool) -> bool
    ensures { result ≡ fragment_allowed minor kind more }
{
    if version::reads_fragments(minor) {
        !(more && (kind == CANCEL_REQUEST || is_bare(kind)))
    } else {
        !(kind == FRAGMENT || more)
    }
}

// Whether a message with fragments after it ends at a multiple of 8.
#[tactic(auto, unfolding(crate::specs::Frames::eights_allowed))]
pub(crate) fn eights_allowed(more: bool, size: u32) -> bool
    ensures { result ≡ eights_allowed more size }
{
    !more || (size as u64 + HEADER_SIZE as u64) % 8 == 0
}
