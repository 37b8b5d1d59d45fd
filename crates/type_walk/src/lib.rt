// The check of a TypeCode, octet by octet: 42, 30 to 38 and 40. A type nested in another is checked by the same function, one level on.
#![tactic(auto)]

ghost use Rattle.std.specs.Prelude.{◌≡◌, ◌+◌, ◌≤◌, ◌<◌, length};
ghost use Rattle.cdr.specs.{octets_limit};
ghost use Rattle.type_numbers.specs.Kinds.{kinds_limit};
ghost use Rattle.type_kinds.specs.Parts.{place_before};
ghost use Rattle.type_list.specs.Arrays.{kinds_met};
ghost use Rattle.type_kinds.specs.declared.Labels.TheVariants.{NoLabels};
ghost use Rattle.type_unions.specs.Arms.{no_default};
ghost use Rattle.type_walk.specs.Walk.{seen, seen_as, goes_on_at, on_step, count_then};
ghost use Rattle.type_walk.specs.Types.{indirection_at, discriminant_at, members_at, labels_at, contents_at, inside_at, type_at, walked_of};

use cdr::{Index, Order, Place, Size};
use type_counts::Refusal;
use type_kinds::{Form, Labels, Layout};
use type_list::Met;

mod walks;

// The kinds met so far, and which of them are no target yet.
#[derive(Clone, Copy)]
pub struct Walk {
    pub met: Met,
    pub barred: [bool; type_numbers::KINDS_LIMIT],
}

// Where a check goes on, or why it does not; and what it has met.
#[derive(Clone, Copy)]
pub struct Walked {
    pub step: Result<Index, Refusal>,
    pub walk: Walk,
}

// Checks octets as a TypeCode in a byte order: where it ends or why it is refused, 42 and 30 to 38 and 40, and the kinds met.
#[tactic(auto, unfolding(crate::specs::Types::walked_of, choices::specs::Branch::choose))]
pub fn walk_type(types: &[u8], order: Order) -> Walked
    ensures { seen_as result ≡ walked_of types.now order }
{
    let walk = walks::nothing_met();
    if cdr::OCTETS_LIMIT < types.len() {
        return walks::refused(Refusal::TooLong, walk);
    }
    check(
        types,
        types,
        Place(0),
        order,
        Index::START,
        type_fields::NESTING,
        walk,
    )
}

// The place of the unsigned long that ends before an index.
fn place_before(start: Place, next: Index) -> Place
    requires { (4 ≤ next.0) × (start.0 + next.0 ≤ octets_limit) }
    ensures { result ≡ place_before start next }
{
    Place(start.0 + (next.0 - 4))
}

// Where an indirection leads whose offset stands at an index.
fn indirection(
    part: &[u8],
    start: Place,
    order: Order,
    at: Index,
    walk: Walk,
) -> Result<Index, Refusal>
    requires { start.0 + length part.now ≤ octets_limit }
    ensures { on_step result (seen walk) (λ i. goes_on_at i (seen walk)) ≡ indirection_at part.now start order at (seen walk) }
{
    let (offset, next) = cdr_fields::read_field(part, at, Size::Four, order).ok_or(Refusal::Ends)?;
    let place = type_kinds::target_of(place_before(start, next), offset).ok_or(Refusal::BadTarget)?;
    walks::target_step(walk, place, next)
}

// What the discriminant at an index says of labels.
#[tactic(auto, unfolding(crate::specs::Types::labels_at))]
fn labels_at(types: &[u8], met: Met, start: Place, at: Index, order: Order) -> Labels
    ensures { result ≡ labels_at types.now (kinds_met met) start at order }
{
    match type_kinds::spot_at(types, start, at, order) {
        Some((inner, _)) => type_unions::labels_for(types, met, type_kinds::place_in(inner)),
        None => Labels::NoLabels,
    }
}

// A TypeCode at an index, with so many levels left.
#[cycle(walk)]
fn check(
    types: &[u8],
    part: &[u8],
    start: Place,
    order: Order,
    at: Index,
    left: u8,
    walk: Walk,
) -> Walked
    requires { start.0 + length part.now ≤ octets_limit }
    ensures { seen_as result ≡ type_at types.now left part.now start order at (seen walk) }
{
    let Some((kind, next)) = cdr_fields::read_field(part, at, Size::Four, order) else {
        return walks::refused(Refusal::Ends, walk);
    };
    if kind == type_numbers::INDIRECTION {
        return walks::on(indirection(part, start, order, next, walk), walk);
    }
    let form = type_kinds::form_of(kind);
    let here = walks::count(walk);
    match type_fields::entry_of(form, kind, left, here) {
        Err(refusal) => walks::refused(refusal, walk),
        Ok(()) => {
            let place = place_before(start, next);
            let entered = walks::enter(walk, place, start, order, form);
            inside(
                types,
                form,
                part,
                start,
                order,
                next,
                left - 1,
                entered,
                here,
            )
        }
    }
}

// What follows a kind of a form, which has the position `here`.
#[cycle(walk)]
fn inside(
    types: &[u8],
    form: Form,
    part: &[u8],
    start: Place,
    order: Order,
    at: Index,
    left: u8,
    walk: Walk,
    here: usize,
) -> Walked
    requires { (start.0 + length part.now ≤ octets_limit) × (here < kinds_limit) }
    ensures { seen_as result ≡ inside_at types.now (type_at types.now left) form part.now start order at (seen walk) here }
{
    match form {
        Form::Unlisted => walks::refused(Refusal::NoSuchKind, walk),
        Form::Plain => walks::goes_on(at, walks::close(walk, here)),
        Form::Bounded => walks::bounded(part, order, at, walk, here),
        Form::Composite(layout) => match type_parts::part_at(part, at, order) {
            Err(refusal) => walks::refused(refusal, walk),
            Ok((from, end, o)) => {
                let first = Place(start.0 + from);
                let walked = parameters(types, layout, &part[from..end], first, o, left, walk);
                walks::ended(walked, here, end - from, end)
            }
        },
    }
}

// What an encapsulation of a layout holds.
#[cycle(walk)]
fn parameters(
    types: &[u8],
    layout: Layout,
    part: &[u8],
    start: Place,
    order: Order,
    left: u8,
    walk: Walk,
) -> Walked
    requires { start.0 + length part.now ≤ octets_limit }
    ensures { seen_as result ≡ contents_at types.now (type_at types.now left) layout part.now start order (seen walk) }
{
    match layout {
        Layout::Objref => walks::on(type_counts::names_step(part, order), walk),
        Layout::Enum => walks::on(type_parts::enum_step(part, order), walk),
        Layout::Struct => {
            let head = type_counts::head_step(part, order);
            unlabelled(types, head, part, start, order, left, walk)
        }
        Layout::Exception => {
            let head = type_counts::exception_step(part, order);
            unlabelled(types, head, part, start, order, left, walk)
        }
        Layout::Sequence => {
            let walked = check(types, part, start, order, Index(1), left, walk);
            walks::then_number(part, order, walked)
        }
        Layout::Array => {
            let walked = check(types, part, start, order, Index(1), left, walk);
            walks::then_length(part, order, walked)
        }
        Layout::Alias => match type_counts::names_step(part, order) {
            Err(refusal) => walks::refused(refusal, walk),
            Ok(i) => check(types, part, start, order, i, left, walk),
        },
        Layout::Union => match type_counts::names_step(part, order) {
            Err(refusal) => walks::refused(refusal, walk),
            Ok(i) => switched(types, part, start, order, i, left, walk),
        },
    }
}

// Members without labels, behind a head that tells their number.
#[cycle(walk)]
fn unlabelled(
    types: &[u8],
    head: Result<(u64, Index), Refusal>,
    part: &[u8],
    start: Place,
    order: Order,
    left: u8,
    walk: Walk,
) -> Walked
    requires { start.0 + length part.now ≤ octets_limit }
    ensures { seen_as result ≡ count_then head (seen walk) (λ n next. members_at types.now (type_at types.now left) NoLabels no_default part.now
        start order next n 0 next (seen walk)) }
{
    match head {
        Err(refusal) => walks::refused(refusal, walk),
        Ok((count, next)) => member_types(
            types,
            Labels::NoLabels,
            type_unions::NO_DEFAULT,
            part,
            start,
            order,
            next,
            count,
            left,
            walk,
        ),
    }
}

// The discriminant of a union at an index, and what follows it.
#[cycle(walk)]
fn switched(
    types: &[u8],
    part: &[u8],
    start: Place,
    order: Order,
    at: Index,
    left: u8,
    walk: Walk,
) -> Walked
    requires { start.0 + length part.now ≤ octets_limit }
    ensures { seen_as result ≡ discriminant_at types.now (type_at types.now left) part.now start order at (seen walk) }
{
    let walked = check(types, part, start, order, at, left, walk);
    let w = walked.walk;
    match walked.step {
        Err(refusal) => walks::refused(refusal, w),
        Ok(i) => {
            let labels = labels_at(types, w.met, start, at, order);
            match walks::switch_head(labels, part, i, order) {
                Err(refusal) => walks::refused(refusal, w),
                Ok((default, count, next)) => member_types(
                    types, labels, default, part, start, order, next, count, left, w,
                ),
            }
        }
    }
}

// So many members from an index on, each with a label where there are labels.
#[cycle(walk)]
fn member_types(
    types: &[u8],
    labels: Labels,
    default: u64,
    part: &[u8],
    start: Place,
    order: Order,
    first: Index,
    count: u64,
    left: u8,
    walk: Walk,
) -> Walked
    requires { start.0 + length part.now ≤ octets_limit }
    ensures { seen_as result ≡ members_at types.now (type_at types.now left) labels default part.now start order first count 0 first
        (seen walk) }
{
    let mut w = walk;
    let mut at = first;
    for k in 0..count {
        match walks::name_after(labels, types, part, start, order, default, k, first, at) {
            Err(refusal) => {
                return walks::refused(refusal, w);
            }
            Ok(i) => {
                let walked = check(types, part, start, order, i, left, w);
                w = walked.walk;
                match walked.step {
                    Err(refusal) => {
                        return walks::refused(refusal, w);
                    }
                    Ok(next) => {
                        at = next;
                    }
                }
            }
        }
    }
    walks::goes_on(at, w)
}
