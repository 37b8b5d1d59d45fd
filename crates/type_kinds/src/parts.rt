// What is passed over, and where an indirection leads.
ghost use Rattle.std.specs.Prelude.{◌≡◌, ◌+◌, ◌-◌, ◌^◌, ◌≤◌, ◌<◌};
ghost use Rattle.type_kinds.specs.Parts.{long_range, place_before, skip_field, skip_counted, skip_kind, aimed, lead_in, names_in};

use crate::{Form, Inner, Labels};
use cdr::{Index, Order, Place, Size};

// How far back an offset leads that is negative.
pub(crate) fn back(offset: u64) -> usize
    ensures { result ≡ long_range - offset }
{
    crate::LONG_RANGE.saturating_sub(offset) as usize
}

// A number is passed over.
#[tactic(auto, unfolding(crate::specs::Parts::skip_field))]
pub(crate) fn skip_field(
    types: &[u8],
    start: Place,
    at: Index,
    size: Size,
    order: Order,
) -> Option<Index>
    ensures { result ≡ skip_field types.now start at size order }
{
    crate::field_in(types, start, at, size, order).map(|(_, next)| next)
}

// Counted octets are passed over.
#[tactic(auto, unfolding(crate::specs::Parts::skip_counted, cdr_fields::specs::Extents::counted_at))]
pub(crate) fn skip_counted(types: &[u8], start: Place, at: Index, order: Order) -> Option<Index>
    ensures { result ≡ skip_counted types.now start at order }
{
    cdr_fields::counted_at(types.get(start.0..)?, at, order).map(|(_, next)| next)
}

// The place of the unsigned long that ends before an index.
pub(crate) fn place_before(start: Place, next: Index) -> Place
    requires { (4 ≤ next.0) × (start.0 + next.0 < 2 ^ 64) }
    ensures { result ≡ place_before start next }
{
    Place(start.0 + (next.0 - 4))
}

// What follows a kind is passed over.
pub(crate) fn skip_kind(
    form: Form,
    types: &[u8],
    start: Place,
    at: Index,
    order: Order,
) -> Option<Index>
    ensures { result ≡ skip_kind form types.now start at order }
{
    match form {
        Form::Unlisted => None,
        Form::Plain => Some(at),
        Form::Bounded => skip_field(types, start, at, Size::Four, order),
        Form::Composite(_) => skip_counted(types, start, at, order),
    }
}

// Where the indirection leads whose offset is at an index.
#[tactic(auto, unfolding(crate::specs::Parts::aimed))]
pub(crate) fn aimed(types: &[u8], start: Place, at: Index, order: Order) -> Option<(Inner, Index)>
    ensures { result ≡ aimed types.now start at order }
{
    let (offset, next) = crate::field_in(types, start, at, Size::Four, order)?;
    let place = crate::target_of(place_before(start, next), offset)?;
    Some((Inner::There(place), next))
}

// The label before a member's name is passed over.
pub(crate) fn lead_in(
    labels: Labels,
    types: &[u8],
    start: Place,
    at: Index,
    order: Order,
) -> Option<Index>
    ensures { result ≡ lead_in labels types.now start at order }
{
    match labels {
        Labels::Of { size, limit: _ } => skip_field(types, start, at, size, order),
        Labels::NoLabels => Some(at),
    }
}

// Id and name are passed over.
#[tactic(auto, unfolding(crate::specs::Parts::names_in))]
pub fn names_in(types: &[u8], start: Place, order: Order) -> Option<Index>
    ensures { result ≡ names_in types.now start order }
{
    let name = skip_counted(types, start, Index(1), order)?;
    skip_counted(types, start, name, order)
}
