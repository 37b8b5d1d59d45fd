// The texts, numbers and counts of a type's parameters, checked, and the refusals of a type. Every function answers for any octets.
#![tactic(auto)]

ghost use Rattle.std.specs.Prelude.{◌≡◌};
ghost use Rattle.type_counts.specs.Refusals.{type_refusal_number};
ghost use Rattle.type_counts.specs.Counts.{type_text_refusal, text_step, names_step, number_step, count_step, any_count, head_step, exception_step};
ghost use Rattle.type_counts.specs.Counts.{length_step};

use cdr::{Index, Order, Size};
use cdr_fields::StringFault;

// Why the octets of a type are refused.
#[derive(Clone, Copy)]
pub enum Refusal {
    Ends,
    NoSuchKind,
    BadText,
    BadEncapsulation,
    NoCount,
    BadUnion,
    BadTarget,
    TooManyKinds,
    TooDeep,
    BelowTop,
    TooLong,
}

impl Refusal {
    // The paper's number of the refusal.
    pub fn number(self) -> u32
        ensures { result ≡ type_refusal_number self }
    {
        match self {
            Refusal::Ends => refusals::TYPE_ENDS,
            Refusal::NoSuchKind => refusals::NO_SUCH_KIND,
            Refusal::BadText => refusals::BAD_TYPE_TEXT,
            Refusal::BadEncapsulation => refusals::BAD_ENCAPSULATION,
            Refusal::NoCount => refusals::NO_COUNT,
            Refusal::BadUnion => refusals::BAD_UNION,
            Refusal::BadTarget => refusals::BAD_TARGET,
            Refusal::TooManyKinds => refusals::TOO_MANY_KINDS,
            Refusal::TooDeep => refusals::TOO_DEEP,
            Refusal::BelowTop => refusals::BELOW_TOP,
            Refusal::TooLong => refusals::TOO_LONG,
        }
    }
}

impl From<StringFault> for Refusal {
    ghost from_gives = { λ fault result. result ≡ type_text_refusal fault };

    // Why there is no text.
    fn from(fault: StringFault) -> Refusal {
        match fault {
            StringFault::BadText => Refusal::BadText,
            StringFault::NoText => Refusal::Ends,
        }
    }
}

// A text.
#[tactic(auto, unfolding(crate::specs::Counts::text_step))]
pub fn text_step(part: &[u8], at: Index, order: Order) -> Result<Index, Refusal>
    ensures { result ≡ text_step part.now at order }
{
    let (from, length) = cdr_fields::read_string(part, at, order)?;
    Ok(Index(from.0 + length + 1))
}

// Id and name.
#[tactic(auto, unfolding(crate::specs::Counts::names_step))]
pub fn names_step(part: &[u8], order: Order) -> Result<Index, Refusal>
    ensures { result ≡ names_step part.now order }
{
    let name = text_step(part, Index(1), order)?;
    text_step(part, name, order)
}

// An unsigned long.
#[tactic(auto, unfolding(crate::specs::Counts::number_step, crate::specs::Counts::any_count))]
pub fn number_step(part: &[u8], at: Index, order: Order) -> Result<Index, Refusal>
    ensures { result ≡ number_step part.now at order }
{
    any_count(part, at, order).map(|(_, next)| next)
}

// A count that is not 0.
#[tactic(auto, unfolding(crate::specs::Counts::count_step, crate::specs::Counts::any_count))]
pub fn count_step(part: &[u8], at: Index, order: Order) -> Result<(u64, Index), Refusal>
    ensures { result ≡ count_step part.now at order }
{
    let (count, next) = any_count(part, at, order)?;
    if count == 0 {
        return Err(Refusal::NoCount);
    }
    Ok((count, next))
}

// A count that may be 0.
#[tactic(auto, unfolding(crate::specs::Counts::any_count))]
fn any_count(part: &[u8], at: Index, order: Order) -> Result<(u64, Index), Refusal>
    ensures { result ≡ any_count part.now at order }
{
    cdr_fields::read_field(part, at, Size::Four, order).ok_or(Refusal::Ends)
}

// Id, name and count.
#[tactic(auto, unfolding(crate::specs::Counts::head_step))]
pub fn head_step(part: &[u8], order: Order) -> Result<(u64, Index), Refusal>
    ensures { result ≡ head_step part.now order }
{
    let next = names_step(part, order)?;
    count_step(part, next, order)
}

// Id, name and count of an exception.
#[tactic(auto, unfolding(crate::specs::Counts::exception_step))]
pub fn exception_step(part: &[u8], order: Order) -> Result<(u64, Index), Refusal>
    ensures { result ≡ exception_step part.now order }
{
    let next = names_step(part, order)?;
    any_count(part, next, order)
}

// An array's length.
#[tactic(auto, unfolding(crate::specs::Counts::length_step))]
pub fn length_step(part: &[u8], at: Index, order: Order) -> Result<Index, Refusal>
    ensures { result ≡ length_step part.now at order }
{
    count_step(part, at, order).map(|(_, next)| next)
}
