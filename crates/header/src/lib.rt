// The header of a Request or Reply of 1.0 to 1.2, in a whole or joined message: 42, 12 to 21, 75, then 70 to 74 in the order of the octets; and a
// context, or a profile of the reference that a request is addressed to, by number, 69.
#![tactic(auto)]

ghost use Rattle.std.specs.Prelude.{◌≡◌, true, false};
ghost use Rattle.header_layout.specs.Layout.{early_request, late_request, early_reply, late_reply, is_request, layout_of};
ghost use Rattle.header.specs.Header.{header_answer, header_in, header_by};
ghost use Rattle.header.specs.Numbered.{numbered_tag, profiles_in, context_of, profile_of_target};

use cdr::{Index, Order};
use cdr_fields::{Extent, TaggedList};
use header_parts::{Refusal, TargetAddress};

// The most octets of a message.
const LIMIT: usize = cdr::OCTETS_LIMIT;

// Where a header's parts begin.
const FIRST: Index = Index(frame::HEADER_SIZE);

// No octets, and a list of nothing.
const NO_OCTETS: Extent = Extent {
    from: Index::START,
    length: 0,
};

const NO_LIST: TaggedList = TaggedList {
    count: 0,
    first: Index::START,
};

// What a request's header says. The principal is empty from 1.2 on; `body` is where the body begins.
#[derive(Clone, Copy)]
pub struct RequestHeader {
    pub minor: u8,
    pub order: Order,
    pub id: u64,
    pub response: u64,
    pub target: TargetAddress,
    pub operation: Extent,
    pub principal: Extent,
    pub contexts: TaggedList,
    pub body: usize,
}

// What a reply's header says.
#[derive(Clone, Copy)]
pub struct ReplyHeader {
    pub minor: u8,
    pub order: Order,
    pub id: u64,
    pub status: u64,
    pub contexts: TaggedList,
    pub body: usize,
}

// What a message's header says: a request's or a reply's.
#[derive(Clone, Copy)]
pub enum MessageHeader {
    Called(RequestHeader),
    Answered(ReplyHeader),
}

// Reads the header of a message.
pub fn read(s: &[u8]) -> Result<MessageHeader, Refusal>
    ensures { result ≡ header_answer s.now }
{
    if LIMIT < s.len() {
        return Err(Refusal::TooLong);
    }
    let h = frame::judge_message(s)?;
    header_in(s, h)
}

// Reads the header of an accepted message, by its type and version.
fn header_in(s: &[u8], h: frame::Header) -> Result<MessageHeader, Refusal>
    ensures { result ≡ header_in s.now h }
{
    if h.more || header_layout::REPLY < h.kind {
        return Err(Refusal::NoHeader);
    }
    by_type(s, h.kind, h.order, h.minor)
}

// Reads the header of a request or a reply.
fn by_type(s: &[u8], kind: u8, order: Order, minor: u8) -> Result<MessageHeader, Refusal>
    ensures { result ≡ header_by s.now (is_request kind) order minor (layout_of kind minor) }
{
    match (
        kind == header_layout::REQUEST,
        version::body_starts_with_id(minor),
    ) {
        (true, false) => early_request(s, order, minor),
        (true, true) => late_request(s, order, minor),
        (false, false) => early_reply(s, order, minor),
        (false, true) => late_reply(s, order, minor),
    }
}

// A request before 1.2: contexts, id, response, reserved octets, key, operation, then the principal.
fn early_request(s: &[u8], order: Order, minor: u8) -> Result<MessageHeader, Refusal>
    ensures { result ≡ header_by s.now true order minor early_request }
{
    let (contexts, next) = cdr_fields::tagged_list_at(s, FIRST, order).ok_or(Refusal::Ends)?;
    let call = header_reading::call_at(s, next, order, minor)?;
    let address = header_reading::key_address_at(s, call.next, order, minor)?;
    let (principal, end) = cdr_fields::counted_at(s, address.next, order).ok_or(Refusal::Ends)?;
    let body = header_parts::body_at(s.len(), end.0, minor)?;
    Ok(MessageHeader::Called(RequestHeader {
        minor,
        order,
        id: call.id,
        response: call.response,
        target: address.target,
        operation: address.operation,
        principal,
        contexts,
        body,
    }))
}

// A request from 1.2 on: id, response, reserved octets, target, operation, then the contexts.
fn late_request(s: &[u8], order: Order, minor: u8) -> Result<MessageHeader, Refusal>
    ensures { result ≡ header_by s.now true order minor late_request }
{
    let call = header_reading::call_at(s, FIRST, order, minor)?;
    let address = header_reading::address_at(s, call.next, order, minor)?;
    let (contexts, end) = cdr_fields::tagged_list_at(s, address.next, order).ok_or(Refusal::Ends)?;
    let body = header_parts::body_at(s.len(), end.0, minor)?;
    Ok(MessageHeader::Called(RequestHeader {
        minor,
        order,
        id: call.id,
        response: call.response,
        target: address.target,
        operation: address.operation,
        principal: NO_OCTETS,
        contexts,
        body,
    }))
}

// A reply before 1.2: contexts, id, status.
fn early_reply(s: &[u8], order: Order, minor: u8) -> Result<MessageHeader, Refusal>
    ensures { result ≡ header_by s.now false order minor early_reply }
{
    let (contexts, next) = cdr_fields::tagged_list_at(s, FIRST, order).ok_or(Refusal::Ends)?;
    let outcome = header_reading::outcome_at(s, next, order, minor)?;
    let body = header_parts::body_at(s.len(), outcome.next.0, minor)?;
    Ok(MessageHeader::Answered(ReplyHeader {
        minor,
        order,
        id: outcome.id,
        status: outcome.status,
        contexts,
        body,
    }))
}

// A reply from 1.2 on: id, status, contexts.
fn late_reply(s: &[u8], order: Order, minor: u8) -> Result<MessageHeader, Refusal>
    ensures { result ≡ header_by s.now false order minor late_reply }
{
    let outcome = header_reading::outcome_at(s, FIRST, order, minor)?;
    let (contexts, end) = cdr_fields::tagged_list_at(s, outcome.next, order).ok_or(Refusal::Ends)?;
    let body = header_parts::body_at(s.len(), end.0, minor)?;
    Ok(MessageHeader::Answered(ReplyHeader {
        minor,
        order,
        id: outcome.id,
        status: outcome.status,
        contexts,
        body,
    }))
}

// The context of a message's header that has a number, the first one 0.
pub fn context(s: &[u8], number: u64) -> Result<(u64, Extent), Refusal>
    ensures { result ≡ context_of s.now number }
{
    match read(s)? {
        MessageHeader::Called(q) => numbered(s, q.contexts, q.order, number),
        MessageHeader::Answered(a) => numbered(s, a.contexts, a.order, number),
    }
}

// The profile that has a number, the first one 0, of the reference that a request is addressed to.
pub fn target_profile(s: &[u8], number: u64) -> Result<(u64, Extent), Refusal>
    ensures { result ≡ profile_of_target s.now number }
{
    match read(s)? {
        MessageHeader::Called(q) => numbered(s, profiles_in(q.target), q.order, number),
        MessageHeader::Answered(a) => numbered(s, NO_LIST, a.order, number),
    }
}

// The profiles of a target: none where it is no reference.
fn profiles_in(target: TargetAddress) -> TaggedList
    ensures { result ≡ profiles_in target }
{
    match target {
        TargetAddress::Key(_) | TargetAddress::Profile { .. } => NO_LIST,
        TargetAddress::Reference { profiles, .. } => profiles,
    }
}

// The tagged octets of a list that have a number.
fn numbered(s: &[u8], list: TaggedList, order: Order, number: u64) -> Result<(u64, Extent), Refusal>
    ensures { result ≡ numbered_tag s.now list order number }
{
    if list.count <= number {
        return Err(Refusal::NoSuchPart);
    }
    let (tag, octets, _) = cdr_fields::tagged_behind(s, list.first, number, order).ok_or(
        Refusal::Ends,
    )?;
    Ok((tag, octets))
}
