// Parts of a header that stand one behind the other in every version, read together.
#![tactic(auto)]

ghost use Rattle.std.specs.Prelude.{◌≡◌};
ghost use Rattle.header_reading.specs.Groups.{ReadsCall, ReadsOutcome, ReadsKeyAddress, ReadsAddress};

use cdr::{Index, Order, Size};
use cdr_fields::Extent;
use header_parts::{Refusal, TargetAddress};

// What a request's header says of the call, and the index after it.
#[derive(Clone, Copy)]
pub struct CallPart {
    pub id: u64,
    pub response: u64,
    pub next: Index,
}

// What a reply's header says of the outcome, and the index after it.
#[derive(Clone, Copy)]
pub struct OutcomePart {
    pub id: u64,
    pub status: u64,
    pub next: Index,
}

// What a request is addressed to, and the index after it.
#[derive(Clone, Copy)]
pub struct AddressPart {
    pub target: TargetAddress,
    pub operation: Extent,
    pub next: Index,
}

// The request id, the response and the reserved octets at an index.
pub fn call_at(s: &[u8], at: Index, order: Order, minor: u8) -> Result<CallPart, Refusal>
    ensures { ReadsCall s.now order minor at result }
{
    let (id, next) = cdr_fields::read_field(s, at, Size::Four, order).ok_or(Refusal::Ends)?;
    let (response, answered) = header_parts::response_at(s, next, order, minor)?;
    let reserved = version::reserved_octets(minor);
    let end = cdr_text::read_run(s, answered.0, reserved).ok_or(Refusal::Ends)?;
    Ok(CallPart {
        id,
        response,
        next: Index(end),
    })
}

// The request id and the status at an index.
pub fn outcome_at(s: &[u8], at: Index, order: Order, minor: u8) -> Result<OutcomePart, Refusal>
    ensures { ReadsOutcome s.now order minor at result }
{
    let (id, next) = cdr_fields::read_field(s, at, Size::Four, order).ok_or(Refusal::Ends)?;
    let (status, next) = header_parts::status_at(s, next, order, minor)?;
    Ok(OutcomePart { id, status, next })
}

// The key and the operation at an index.
pub fn key_address_at(s: &[u8], at: Index, order: Order, minor: u8) -> Result<AddressPart, Refusal>
    ensures { ReadsKeyAddress s.now order minor at result }
{
    let (target, next) = header_parts::key_target(s, at, order)?;
    let (operation, next) = header_parts::text_at(s, next, order)?;
    Ok(AddressPart {
        target,
        operation,
        next,
    })
}

// The target and the operation at an index.
pub fn address_at(s: &[u8], at: Index, order: Order, minor: u8) -> Result<AddressPart, Refusal>
    ensures { ReadsAddress s.now order minor at result }
{
    let (target, next) = header_parts::target_at(s, at, order)?;
    let (operation, next) = header_parts::text_at(s, next, order)?;
    Ok(AddressPart {
        target,
        operation,
        next,
    })
}
