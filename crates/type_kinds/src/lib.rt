// Kinds of type: what stands at a kind, read again by its place, its encapsulation's start and its order, without judging it. Every
// function answers for any octets and places.
#![tactic(auto)]

ghost use Rattle.std.specs.Prelude.{◌≡◌};
ghost use Rattle.type_kinds.specs.Forms.{form_of};
ghost use Rattle.type_kinds.specs.Parts.{place_in, field_in, target_of, spot_at, member_at};
ghost use Rattle.type_kinds.specs.Members.{label_at};

use cdr::{Index, Order, Place, Size};

mod parts;

pub use parts::names_in;

// What follows a kind.
#[derive(Clone, Copy)]
pub enum Form {
    Unlisted,
    Plain,
    Bounded,
    Composite(Layout),
}

// What an encapsulation holds.
#[derive(Clone, Copy)]
pub enum Layout {
    Objref,
    Struct,
    Union,
    Enum,
    Sequence,
    Array,
    Alias,
    Exception,
}

// How many longs there are.
pub const LONG_RANGE: u64 = 4294967296;

// The longs recorded as this number or a greater one are negative.
pub const LONG_HALF: u64 = 2147483648;

// What follows a kind, by its number.
#[tactic(auto, unfolding(crate::specs::Forms::form_of))]
pub fn form_of(kind: u64) -> Form
    ensures { result ≡ form_of kind }
{
    match kind {
        type_numbers::NULL..=type_numbers::OCTET => Form::Plain,
        type_numbers::OBJREF => Form::Composite(Layout::Objref),
        type_numbers::STRUCT => Form::Composite(Layout::Struct),
        type_numbers::UNION => Form::Composite(Layout::Union),
        type_numbers::ENUM => Form::Composite(Layout::Enum),
        type_numbers::STRING => Form::Bounded,
        type_numbers::SEQUENCE => Form::Composite(Layout::Sequence),
        type_numbers::ARRAY => Form::Composite(Layout::Array),
        type_numbers::ALIAS => Form::Composite(Layout::Alias),
        type_numbers::EXCEPTION => Form::Composite(Layout::Exception),
        type_numbers::LONG_LONG | type_numbers::UNSIGNED_LONG_LONG => Form::Plain,
        _ => Form::Unlisted,
    }
}

// A kind that is written: its place, and the start and order of the encapsulation it stands in.
#[derive(Clone, Copy)]
pub struct Kind {
    pub place: Place,
    pub start: Place,
    pub order: Order,
}

// A type inside another: a kind that is written there, or an indirection, by its target's place.
#[derive(Clone, Copy)]
pub enum Inner {
    Here(Kind),
    There(Place),
}

// The labels before a union's members, of a size, and below a limit of which 0 is none; a struct's members have none.
#[derive(Clone, Copy)]
pub enum Labels {
    Of { size: Size, limit: u64 },
    NoLabels,
}

// Where members are listed: the start and order of their encapsulation, their count, and the first one's index.
#[derive(Clone, Copy)]
pub struct Fields {
    pub start: Place,
    pub order: Order,
    pub count: u64,
    pub first: Index,
}

// A kind that holds no other: of a leaf its kind, of a string its bound, of an enum the number of its names.
#[derive(Clone, Copy)]
pub enum Inert {
    Leaf(u64),
    Text(u64),
    Objref,
    Enum(u64),
}

// The place of a type inside another, an indirection counting as its target.
pub fn place_in(inner: Inner) -> Place
    ensures { result ≡ place_in inner }
{
    match inner {
        Inner::Here(kind) => kind.place,
        Inner::There(place) => place,
    }
}

// The number at an index of the encapsulation that starts at a place.
#[tactic(auto, unfolding(crate::specs::Parts::field_in))]
pub fn field_in(
    types: &[u8],
    start: Place,
    at: Index,
    size: Size,
    order: Order,
) -> Option<(u64, Index)>
    ensures { result ≡ field_in types.now start at size order }
{
    cdr_fields::read_field(types.get(start.0..)?, at, size, order)
}

// Where an offset leads that stands at a place.
#[tactic(auto, unfolding(crate::specs::Parts::target_of))]
pub fn target_of(at: Place, offset: u64) -> Option<Place>
    ensures { result ≡ target_of at offset }
{
    let p = at.0;
    if offset < LONG_HALF {
        p.checked_add(offset as usize).map(Place)
    } else {
        p.checked_sub(parts::back(offset)).map(Place)
    }
}

// The type that stands at an index of the encapsulation that starts at a place, and the index after it.
#[tactic(auto, unfolding(crate::specs::Parts::spot_at))]
pub fn spot_at(types: &[u8], start: Place, at: Index, order: Order) -> Option<(Inner, Index)>
    ensures { result ≡ spot_at types.now start at order }
{
    let (kind, next) = field_in(types, start, at, Size::Four, order)?;
    if kind == type_numbers::INDIRECTION {
        return parts::aimed(types, start, next, order);
    }
    let over = parts::skip_kind(form_of(kind), types, start, next, order)?;
    let place = parts::place_before(start, next);
    let written = Kind {
        place,
        start,
        order,
    };
    Some((Inner::Here(written), over))
}

// A member at an index, with a label before it or none: its type, and the index after it.
#[tactic(auto, unfolding(crate::specs::Parts::member_at))]
pub fn member_at(
    labels: Labels,
    types: &[u8],
    start: Place,
    at: Index,
    order: Order,
) -> Option<(Inner, Index)>
    ensures { result ≡ member_at labels types.now start at order }
{
    let name = parts::lead_in(labels, types, start, at, order)?;
    let next = parts::skip_counted(types, start, name, order)?;
    spot_at(types, start, next, order)
}

// The label at an index, 0 where members have no labels.
pub fn label_at(labels: Labels, types: &[u8], start: Place, at: Index, order: Order) -> u64
    ensures { result ≡ label_at labels types.now start at order }
{
    let Labels::Of { size, .. } = labels else {
        return 0;
    };
    field_in(types, start, at, size, order).map_or(0, |(label, _)| label)
}
