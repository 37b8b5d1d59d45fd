// The C interface's functions about Request and Reply headers: each answers the papers' number, and a refusal leaves all that was lent as it was.
#![tactic(auto)]

ghost use Rattle.std.specs.Prelude.{◌≡◌};
ghost use Rattle.header.specs.Rows.{request_row, reply_row, numbered_number, numbered_row};
ghost use Rattle.c_headers.specs.Answers.{target_cells, request_cells, numbered_after, ReadsHeaderC, FindsContextC, FindsTargetC};

use cdr_fields::Extent;
use header::{MessageHeader, ReplyHeader, RequestHeader};
use header_parts::{Refusal, TargetAddress};

// What a target says as numbers: its kind, the profile's tag or the reference's index, its octets, and the number of the reference's profiles.
#[derive(Clone, Copy)]
struct TargetCells {
    kind: u64,
    number: u64,
    octets: Extent,
    profiles: u64,
}

// A message's header read: 0, 42, 12 to 21, 75, or 70 to 74. `numbers` gets type, minor, order octet, id, response, status, the target's kind,
// tag or index, the index of its octets' first one and their length, its number of profiles, the index and the length of the operation and of
// the principal, number of contexts, and the place of the body. What the message hasn't is 0.
pub fn haulspar_header(octets: &[u8], numbers: &mut [u64; 17]) -> u32
    ensures { ReadsHeaderC octets.now numbers.old result numbers.new }
{
    match header::read(octets) {
        Ok(MessageHeader::Called(request)) => {
            *numbers = request_row(request);
            0
        }
        Ok(MessageHeader::Answered(reply)) => {
            *numbers = reply_row(reply);
            0
        }
        Err(refusal) => refusal.number(),
    }
}

// What a request's header says, as numbers.
fn request_row(q: RequestHeader) -> [u64; 17]
    ensures { result ≡ request_row q }
{
    request_cells(q, target_cells(q.target))
}

// A target's numbers.
fn target_cells(target: TargetAddress) -> TargetCells
    ensures { result ≡ target_cells target }
{
    match target {
        TargetAddress::Key(octets) => TargetCells {
            kind: 0,
            number: 0,
            octets,
            profiles: 0,
        },
        TargetAddress::Profile { tag, octets } => TargetCells {
            kind: 1,
            number: tag,
            octets,
            profiles: 0,
        },
        TargetAddress::Reference {
            index,
            id,
            profiles,
        } => TargetCells {
            kind: 2,
            number: index,
            octets: id,
            profiles: profiles.count,
        },
    }
}

// A request's numbers, with those of its target.
fn request_cells(q: RequestHeader, target: TargetCells) -> [u64; 17]
    ensures { result ≡ request_cells q target }
{
    [
        0,
        u64::from(q.minor),
        u64::from(q.order.octet()),
        q.id,
        q.response,
        0,
        target.kind,
        target.number,
        target.octets.from.0 as u64,
        target.octets.length as u64,
        target.profiles,
        q.operation.from.0 as u64,
        q.operation.length as u64,
        q.principal.from.0 as u64,
        q.principal.length as u64,
        q.contexts.count,
        q.body as u64,
    ]
}

// What a reply's header says, as numbers.
fn reply_row(a: ReplyHeader) -> [u64; 17]
    ensures { result ≡ reply_row a }
{
    [
        1,
        u64::from(a.minor),
        u64::from(a.order.octet()),
        a.id,
        0,
        a.status,
        0,
        0,
        0,
        0,
        0,
        0,
        0,
        0,
        0,
        a.contexts.count,
        a.body as u64,
    ]
}

// A context of a message's header by its number, the first one 0: 0, 42, 12 to 21, 75, 70 to 74, or 69. `found` gets its id, the index of its
// octets' first one, and their length.
pub fn haulspar_context(octets: &[u8], number: u64, found: &mut [u64; 3]) -> u32
    ensures { FindsContextC octets.now number found.old result found.new }
{
    leave_numbered(header::context(octets, number), found)
}

// A profile, by its number, the first one 0, of the reference that a request is addressed to: as a context, with its tag.
pub fn haulspar_target(octets: &[u8], number: u64, found: &mut [u64; 3]) -> u32
    ensures { FindsTargetC octets.now number found.old result found.new }
{
    leave_numbered(header::target_profile(octets, number), found)
}

// An answer about a context or a profile: its number, and what `found` gets.
fn leave_numbered(answer: Result<(u64, Extent), Refusal>, found: &mut [u64; 3]) -> u32
    ensures { (result ≡ numbered_number answer) × (found.new ≡ numbered_after answer found.old) }
{
    match answer {
        Ok((tag, part)) => {
            *found = numbered_row(tag, part);
            0
        }
        Err(refusal) => refusal.number(),
    }
}

// A context or a profile as numbers.
fn numbered_row(tag: u64, octets: Extent) -> [u64; 3]
    ensures { result ≡ numbered_row tag octets }
{
    [tag, octets.from.0 as u64, octets.length as u64]
}
