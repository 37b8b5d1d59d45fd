// The parameters of a kind that is written, by what stands in its encapsulation, without judging them. The function answers for any octets
// and places.
#![tactic(auto)]

ghost use Rattle.std.specs.Prelude.{◌≡◌};
ghost use Rattle.std.specs.Option.{unwrap_or};
ghost use Rattle.type_numbers.specs.Kinds.{string_kind};
ghost use Rattle.type_kinds.specs.declared.Form.TheVariants.{Bounded, Composite};
ghost use Rattle.type_kinds.specs.declared.Layout.TheVariants.{Union};
ghost use Rattle.type_parameters.specs.Parameters.{count_in, type_in, element_in, union_in, parameters_in, encapsulated, parameters_after};
ghost use Rattle.type_parameters.specs.Parameters.{listed_fields, parameters_at};
ghost use Rattle.type_parameters.specs.declared.Parameters.TheVariants.{Fault};

use cdr::{Index, Order, Place, Size};
use type_kinds::{Fields, Form, Inert, Inner, Kind, Layout};

// The parameters of a kind; a union's default as the unsigned long that is recorded. A fault is what octets give that are no kind's
// parameters.
#[derive(Clone, Copy)]
pub enum Parameters {
    Fault,
    Flat(Inert),
    Struct(Fields),
    Exception(Fields),
    Union {
        fields: Fields,
        discriminant: Inner,
        default: u64,
    },
    Sequence {
        element: Inner,
        bound: u64,
    },
    Array {
        element: Inner,
        length: u64,
    },
    Alias(Inner),
}

// The parameters of a kind that is written.
#[tactic(auto, unfolding(crate::specs::Parameters::parameters_at))]
pub fn parameters_at(types: &[u8], kind: Kind) -> Parameters
    ensures { result ≡ parameters_at types.now kind }
{
    let Kind {
        place,
        start,
        order,
    } = kind;
    let at = Index(place.0.saturating_sub(start.0));
    type_kinds::field_in(types, start, at, Size::Four, order)
        .and_then(|(value, next)| {
            parameters_after(type_kinds::form_of(value), types, start, order, value, next)
        })
        .unwrap_or(Parameters::Fault)
}

// The count after id and name.
#[tactic(auto, unfolding(crate::specs::Parameters::count_in))]
fn count_in(types: &[u8], start: Place, order: Order) -> Option<(u64, Index)>
    ensures { result ≡ count_in types.now start order }
{
    let next = type_kinds::names_in(types, start, order)?;
    type_kinds::field_in(types, start, next, Size::Four, order)
}

// The type after id and name.
#[tactic(auto, unfolding(crate::specs::Parameters::type_in))]
fn type_in(types: &[u8], start: Place, order: Order) -> Option<(Inner, Index)>
    ensures { result ≡ type_in types.now start order }
{
    let next = type_kinds::names_in(types, start, order)?;
    type_kinds::spot_at(types, start, next, order)
}

// The type and the number after it, of a sequence or an array.
#[tactic(auto, unfolding(crate::specs::Parameters::element_in))]
fn element_in(types: &[u8], start: Place, order: Order) -> Option<(Inner, u64)>
    ensures { result ≡ element_in types.now start order }
{
    let (inner, next) = type_kinds::spot_at(types, start, Index(1), order)?;
    let (number, _) = type_kinds::field_in(types, start, next, Size::Four, order)?;
    Some((inner, number))
}

// The members that are listed after id and name.
#[tactic(auto, unfolding(crate::specs::Parameters::listed_fields))]
fn listed_fields(types: &[u8], start: Place, order: Order) -> Option<Fields>
    ensures { result ≡ listed_fields types.now start order }
{
    let (count, first) = count_in(types, start, order)?;
    Some(Fields {
        start,
        order,
        count,
        first,
    })
}

// Default and count after a union's discriminant.
#[tactic(auto, unfolding(crate::specs::Parameters::union_in))]
fn union_in(
    types: &[u8],
    start: Place,
    order: Order,
    discriminant: Inner,
    at: Index,
) -> Option<Parameters>
    ensures { unwrap_or result Fault ≡ union_in types.now start order discriminant at }
{
    let (default, next) = type_kinds::field_in(types, start, at, Size::Four, order)?;
    let (count, first) = type_kinds::field_in(types, start, next, Size::Four, order)?;
    let fields = Fields {
        start,
        order,
        count,
        first,
    };
    Some(Parameters::Union {
        fields,
        discriminant,
        default,
    })
}

// What a union holds.
fn switch_in(types: &[u8], start: Place, order: Order) -> Option<Parameters>
    ensures { unwrap_or result Fault ≡ parameters_in Union types.now start order }
{
    let (discriminant, next) = type_in(types, start, order)?;
    union_in(types, start, order, discriminant, next)
}

// What an encapsulation of a layout holds.
#[tactic(auto, unfolding(crate::specs::Parameters::listed_fields))]
fn parameters_in(layout: Layout, types: &[u8], start: Place, order: Order) -> Option<Parameters>
    ensures { unwrap_or result Fault ≡ parameters_in layout types.now start order }
{
    match layout {
        Layout::Objref => Some(Parameters::Flat(Inert::Objref)),
        Layout::Struct => listed_fields(types, start, order).map(Parameters::Struct),
        Layout::Union => switch_in(types, start, order),
        Layout::Enum => {
            let (names, _) = count_in(types, start, order)?;
            Some(Parameters::Flat(Inert::Enum(names)))
        }
        Layout::Sequence => {
            let (element, bound) = element_in(types, start, order)?;
            Some(Parameters::Sequence { element, bound })
        }
        Layout::Array => {
            let (element, length) = element_in(types, start, order)?;
            Some(Parameters::Array { element, length })
        }
        Layout::Alias => {
            let (inner, _) = type_in(types, start, order)?;
            Some(Parameters::Alias(inner))
        }
        Layout::Exception => listed_fields(types, start, order).map(Parameters::Exception),
    }
}

// What an encapsulation holds that starts at a place with its order octet.
#[tactic(auto, unfolding(crate::specs::Parameters::encapsulated))]
fn encapsulated(layout: Layout, types: &[u8], start: Place) -> Option<Parameters>
    ensures { unwrap_or result Fault ≡ encapsulated layout types.now start }
{
    let order = Order::named(*types.get(start.0)?)?;
    parameters_in(layout, types, start, order)
}

// What follows a kind that was read.
fn parameters_after(
    form: Form,
    types: &[u8],
    start: Place,
    order: Order,
    kind: u64,
    at: Index,
) -> Option<Parameters>
    ensures { unwrap_or result Fault ≡ parameters_after form types.now start order kind at }
{
    match form {
        Form::Unlisted => None,
        Form::Plain => Some(Parameters::Flat(Inert::Leaf(kind))),
        Form::Bounded => text_after(types, start, order, at),
        Form::Composite(layout) => composite_after(layout, types, start, order, at),
    }
}

// The bound that follows the kind of a string.
fn text_after(types: &[u8], start: Place, order: Order, at: Index) -> Option<Parameters>
    ensures { unwrap_or result Fault ≡ parameters_after Bounded types.now start order string_kind at }
{
    let (bound, _) = type_kinds::field_in(types, start, at, Size::Four, order)?;
    Some(Parameters::Flat(Inert::Text(bound)))
}

// The encapsulation that follows a kind of a layout.
fn composite_after(
    layout: Layout,
    types: &[u8],
    start: Place,
    order: Order,
    at: Index,
) -> Option<Parameters>
    ensures { unwrap_or result Fault ≡ parameters_after (Composite layout) types.now start order 0 at }
{
    let (_, from) = type_kinds::field_in(types, start, at, Size::Four, order)?;
    encapsulated(layout, types, Place(start.0 + from.0))
}
