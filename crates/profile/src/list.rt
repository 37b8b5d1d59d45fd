// The components of a profile body, one after the other.
ghost use Rattle.std.specs.Prelude.{◌≡◌};
ghost use Rattle.profile.specs.List.{counted_list, list_at, component_from};

use cdr::{Index, Order};
use cdr_fields::Extent;
use profile_parts::Refusal;

// What stands behind the key: nothing in a minor version without components, else their count, so many of them, and octets that are extra.
pub(crate) fn list_at(
    s: &[u8],
    at: Index,
    minor: u8,
    order: Order,
) -> Result<(u64, Index, usize), Refusal>
    ensures { result ≡ list_at s.now at minor order }
{
    if version::has_components(minor) {
        return counted(s, at, order);
    }
    if at.0 < s.len() {
        return Err(Refusal::AfterKey);
    }
    Ok((0, at, 0))
}

// The count, so many components, and the octets after them.
fn counted(s: &[u8], at: Index, order: Order) -> Result<(u64, Index, usize), Refusal>
    ensures { result ≡ counted_list s.now at order }
{
    let (count, first) = profile_parts::count_at(s, at, order)?;
    let end = cdr_fields::skip_tagged(s, first, count, order).ok_or(Refusal::Ends)?;
    Ok((count, first, s.len() - end.0))
}

// The component behind `number` others, read by the reader that holds the octets.
pub(crate) fn component_from(
    s: &[u8],
    first: Index,
    number: u64,
    order: Order,
) -> Result<(u64, Extent, Index), Refusal>
    ensures { result ≡ component_from s.now first number order }
{
    let at = cdr_fields::skip_tagged(s, first, number, order).ok_or(Refusal::Ends)?;
    profile_reader::component_in(s, at, order)
}
