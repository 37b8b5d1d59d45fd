// The walk over a value: the readers of struct, union, sequence and array call one another, with the open levels left falling at each
// entry. Every function answers for any octets, list of kinds and table.
#![tactic(auto)]

ghost use Rattle.std.specs.Prelude.{◌≡◌};
ghost use Rattle.type_kinds.specs.declared.Inert.TheVariants.{Leaf};
ghost use Rattle.type_kinds.specs.declared.Labels.TheVariants.{NoLabels};
ghost use Rattle.type_kinds.specs.Parts.{place_in};
ghost use Rattle.type_kinds.specs.Members.{members_of, types_of};
ghost use Rattle.type_list.specs.Arrays.{kinds_met};
ghost use Rattle.type_unions.specs.Discriminants.{labels_for};
ghost use Rattle.type_unions.specs.Shapes.{Shape, look};
ghost use Rattle.value_meaning.specs.Sinks.{repeats};
ghost use Rattle.value_meaning.specs.Visit.{Checked, checked};
ghost use Rattle.value_meaning.specs.Reading.{reads, levels, top_of};
ghost use Rattle.value_cursor.specs.Walk.{sink_of, source_of, state_of, cursor_start};
ghost use Rattle.value_walk.specs.Nested.{reads_below, reads_with, sequence_at, members_read, exception_at, union_at};

use cdr::Place;
use type_kinds::{Fields, Inert, Inner, Labels};
use type_list::Met;
use type_parameters::Parameters;
use value_cursor::{Cursor, Mode};

// The most levels that may be open.
const LEVELS: u32 = 64;

// The fewest elements for which a plan is made.
const PLANNED: u64 = 8;

// Walks over the value of a checked type from its start.
pub fn walk(types: &[u8], met: Met, value: &[u8], mode: Mode, table: &mut [u64]) -> Cursor
    ensures { state_of result table.new
        ≡ reads (sink_of mode) (source_of mode value.now) (checked types.now (kinds_met met)) levels
        (top_of (checked types.now (kinds_met met))) (state_of cursor_start table.old) }
{
    let top = type_list::inside_of(types, met, Inner::There(Place(0)));
    visit(types, met, value, mode, table, top, LEVELS, Cursor::start())
}

// A visit, with so many levels left.
#[cycle(readers)]
fn visit(
    types: &[u8],
    met: Met,
    value: &[u8],
    mode: Mode,
    table: &mut [u64],
    p: Parameters,
    left: u32,
    cursor: Cursor,
) -> Cursor
    ensures { state_of result table.new
        ≡ reads_with mode value.now types.now (kinds_met met) left p (state_of cursor table.old) }
{
    if left == 0 {
        return cursor.refused(refusals::TOO_MANY_OPEN);
    }
    let below = left - 1;
    let d = cursor.visit();
    match p {
        Parameters::Fault => d,
        Parameters::Flat(inert) => value_leaves::inert(value, mode, table, inert, d),
        Parameters::Struct(fields) => {
            struct_members(types, met, value, mode, table, fields, below, d)
        }
        Parameters::Exception(fields) => {
            exception(types, met, value, mode, table, fields, below, d)
        }
        Parameters::Union {
            fields,
            discriminant,
            default,
        } => {
            union_member(
                types,
                met,
                value,
                mode,
                table,
                fields,
                discriminant,
                default,
                below,
                d,
            )
        }
        Parameters::Sequence { element, bound } => {
            sequence(types, met, value, mode, table, element, bound, below, d)
        }
        Parameters::Array { element, length } => {
            let e = type_list::inside_of(types, met, element);
            elements(types, met, value, mode, table, e, length, below, d)
        }
        Parameters::Alias(inner) => {
            let e = type_list::inside_of(types, met, inner);
            visit(types, met, value, mode, table, e, below, d)
        }
    }
}

// The members of a struct or an exception, in order.
#[cycle(readers)]
fn struct_members(
    types: &[u8],
    met: Met,
    value: &[u8],
    mode: Mode,
    table: &mut [u64],
    fields: Fields,
    left: u32,
    cursor: Cursor,
) -> Cursor
    ensures { state_of result table.new
        ≡ members_read (sink_of mode) (source_of mode value.now) (reads_below mode value.now types.now (kinds_met met) left)
        (checked types.now (kinds_met met)) (types_of (members_of NoLabels types.now fields))
        (state_of cursor table.old) }
{
    let start = fields.start;
    let order = fields.order;
    let count = fields.count;
    let mut at = fields.first;
    let mut d = cursor;
    for _ in 0..count {
        let Some((inner, next)) = type_kinds::member_at(Labels::NoLabels, types, start, at, order)
        else {
            return d;
        };
        let e = type_list::inside_of(types, met, inner);
        d = match e {
            Parameters::Flat(inert) => value_plans::flat(value, mode, table, inert, left, d),
            _ => visit(types, met, value, mode, table, e, left, d),
        };
        if d.fault != 0 {
            return d;
        }
        at = next;
    }
    d
}

// An exception: its id, then its members.
#[cycle(readers)]
fn exception(
    types: &[u8],
    met: Met,
    value: &[u8],
    mode: Mode,
    table: &mut [u64],
    fields: Fields,
    left: u32,
    cursor: Cursor,
) -> Cursor
    ensures { state_of result table.new
        ≡ exception_at (sink_of mode) (source_of mode value.now)
        (reads_below mode value.now types.now (kinds_met met) left) (checked types.now (kinds_met met))
        (types_of (members_of NoLabels types.now fields)) (state_of cursor table.old) }
{
    let d = value_leaves::text(value, mode, table, 0, cursor);
    if d.fault != 0 {
        return d;
    }
    struct_members(types, met, value, mode, table, fields, left, d)
}

// A union: its discriminant, then the member that the discriminant chooses.
#[cycle(readers)]
fn union_member(
    types: &[u8],
    met: Met,
    value: &[u8],
    mode: Mode,
    table: &mut [u64],
    fields: Fields,
    discriminant: Inner,
    default: u64,
    left: u32,
    cursor: Cursor,
) -> Cursor
    ensures { state_of result table.new
        ≡ union_at (sink_of mode) (source_of mode value.now) (reads_below mode value.now types.now (kinds_met met) left)
        (checked types.now (kinds_met met)) discriminant
        (members_of (labels_for types.now (kinds_met met) (place_in discriminant)) types.now fields) default
        (state_of cursor table.old) }
{
    let switch = type_list::inside_of(types, met, discriminant);
    let d = match switch {
        Parameters::Flat(inert) => value_plans::flat(value, mode, table, inert, left, cursor),
        _ => visit(types, met, value, mode, table, switch, left, cursor),
    };
    if d.fault != 0 {
        return d;
    }
    let labels = type_unions::labels_for(types, met, type_kinds::place_in(discriminant));
    let Some(inner) = type_unions::chosen_of(labels, types, fields, default, d.last) else {
        return d;
    };
    let e = type_list::inside_of(types, met, inner);
    match e {
        Parameters::Flat(inert) => value_plans::flat(value, mode, table, inert, left, d),
        _ => visit(types, met, value, mode, table, e, left, d),
    }
}

// A sequence: its count, then its elements.
#[cycle(readers)]
fn sequence(
    types: &[u8],
    met: Met,
    value: &[u8],
    mode: Mode,
    table: &mut [u64],
    element: Inner,
    bound: u64,
    left: u32,
    cursor: Cursor,
) -> Cursor
    ensures { state_of result table.new
        ≡ sequence_at (sink_of mode) (source_of mode value.now) (reads_below mode value.now types.now (kinds_met met) left)
        (look types.now (kinds_met met) element) bound (state_of cursor table.old) }
{
    let d = value_leaves::count(value, mode, table, bound, cursor);
    if d.fault != 0 {
        return d;
    }
    if d.last == 0 {
        return d;
    }
    let e = type_list::inside_of(types, met, element);
    elements(types, met, value, mode, table, e, d.last, left, d)
}

// So many elements of one type.
#[cycle(readers)]
fn elements(
    types: &[u8],
    met: Met,
    value: &[u8],
    mode: Mode,
    table: &mut [u64],
    e: Parameters,
    count: u64,
    left: u32,
    cursor: Cursor,
) -> Cursor
    ensures { state_of result table.new
        ≡ repeats (reads_with mode value.now types.now (kinds_met met) left e) count (state_of cursor table.old) }
{
    match e {
        Parameters::Flat(inert) => {
            if let Inert::Leaf(kind) = inert {
                return leaf_elements(value, mode, table, kind, count, left, cursor);
            }
            flat_elements(value, mode, table, inert, count, left, cursor)
        }
        Parameters::Struct(fields) => {
            if count < PLANNED {
                return each(types, met, value, mode, table, e, count, left, cursor);
            }
            match value_plans::plan_of(types, met, fields, left) {
                Some(plan) => value_plans::structs(value, mode, table, plan, count, cursor),
                None => each(types, met, value, mode, table, e, count, left, cursor),
            }
        }
        _ => each(types, met, value, mode, table, e, count, left, cursor),
    }
}

// So many elements of a kind without parameters, which need no list of kinds.
fn leaf_elements(
    value: &[u8],
    mode: Mode,
    table: &mut [u64],
    kind: u64,
    count: u64,
    left: u32,
    cursor: Cursor,
) -> Cursor
    ensures { (t : Checked) → state_of result table.new ≡ repeats
        (reads (sink_of mode) (source_of mode value.now) t left (Shape.flat (Leaf kind))) count (state_of cursor table.old) }
{
    if count == 0 {
        return cursor;
    }
    if left == 0 {
        return cursor.refused(refusals::TOO_MANY_OPEN);
    }
    value_runs::leaves(value, mode, table, kind, count, cursor)
}

// Elements that hold no other type, each a visit, without the list of kinds.
fn flat_elements(
    value: &[u8],
    mode: Mode,
    table: &mut [u64],
    inert: Inert,
    count: u64,
    left: u32,
    cursor: Cursor,
) -> Cursor
    ensures { (t : Checked) → state_of result table.new ≡ repeats
        (reads (sink_of mode) (source_of mode value.now) t left (Shape.flat inert)) count (state_of cursor table.old) }
{
    let mut d = cursor;
    for _ in 0..count {
        d = value_plans::flat(value, mode, table, inert, left, d);
        if d.fault != 0 {
            return d;
        }
    }
    d
}

// So many elements of one type, one after the other.
#[cycle(readers)]
fn each(
    types: &[u8],
    met: Met,
    value: &[u8],
    mode: Mode,
    table: &mut [u64],
    e: Parameters,
    count: u64,
    left: u32,
    cursor: Cursor,
) -> Cursor
    ensures { state_of result table.new
        ≡ repeats (reads_with mode value.now types.now (kinds_met met) left e) count (state_of cursor table.old) }
{
    let mut d = cursor;
    for _ in 0..count {
        d = visit(types, met, value, mode, table, e, left, d);
        if d.fault != 0 {
            return d;
        }
    }
    d
}
