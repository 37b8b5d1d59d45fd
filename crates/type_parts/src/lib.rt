// The names of an enum and the encapsulations of a type's parameters, checked. Every function answers for any octets.
#![tactic(auto)]

ghost use Rattle.std.specs.Prelude.{◌≡◌};
ghost use Rattle.type_counts.specs.Counts.{texts_step, enum_step, part_of};

use cdr::{Index, Order, Size};
use type_counts::Refusal;

// So many names.
fn texts_step(part: &[u8], order: Order, count: u64, at: Index) -> Result<Index, Refusal>
    ensures { result ≡ texts_step part.now order count at }
{
    let mut next = at;
    for _ in 0..count {
        next = type_counts::text_step(part, next, order)?;
    }
    Ok(next)
}

// What an enum holds.
#[tactic(auto, unfolding(type_counts::specs::Counts::enum_step))]
pub fn enum_step(part: &[u8], order: Order) -> Result<Index, Refusal>
    ensures { result ≡ enum_step part.now order }
{
    let (count, next) = type_counts::head_step(part, order)?;
    texts_step(part, order, count, next)
}

// The encapsulation whose length stands at an index: where it starts and ends, and its order.
#[tactic(auto, unfolding(type_counts::specs::Counts::part_of))]
pub fn part_at(part: &[u8], at: Index, order: Order) -> Result<(usize, usize, Order), Refusal>
    ensures { result ≡ part_of part.now at order }
{
    let (length, next) = cdr_fields::read_field(part, at, Size::Four, order).ok_or(Refusal::Ends)?;
    let start = next.0;
    if length == 0 || ((part.len() - start) as u64) < length {
        return Err(Refusal::BadEncapsulation);
    }
    let end = start + length as usize;
    let order = Order::named(part[start]).ok_or(Refusal::BadEncapsulation)?;
    Ok((start, end, order))
}
