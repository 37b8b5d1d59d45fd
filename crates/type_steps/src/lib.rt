// The loop rule over the kinds met in a TypeCode: each kind's steps by its parameters, and whether some kind returns to itself.
#![tactic(auto)]

ghost use Rattle.std.specs.Prelude.{◌≡◌, ◌<◌, length};
ghost use Rattle.type_list.specs.Arrays.{kinds_met};
ghost use Rattle.type_loops.specs.Loops.{loop_found};
ghost use Rattle.type_kinds.specs.Members.{members_of, types_of};
ghost use Rattle.type_steps.specs.Steps.{stands, any_stands, steps};
ghost use Rattle.type_steps.specs.Inner.{Noted, RowsFilled};

use cdr::Place;
use type_kinds::{Fields, Labels};
use type_list::Met;
use type_loops::Steps;
use type_numbers::KINDS_LIMIT;
use type_parameters::Parameters;

// Whether some kind of the list returns to itself in one or more steps.
pub fn loops_back(types: &[u8], met: Met) -> bool
    ensures { result ≡ loop_found (length (kinds_met met)) (steps types.now (kinds_met met)) }
{
    let table = step_table(types, met);
    type_loops::has_loop(table, type_list::held_in(met.count))
}

// The steps of every kind of the list.
fn step_table(types: &[u8], met: Met) -> Steps
    ensures { RowsFilled types.now (kinds_met met) (length (kinds_met met)) result.rows }
{
    let mut rows = [0; KINDS_LIMIT];
    for i in 0..type_list::held_in(met.count) {
        steps_from(types, met, i, &mut rows);
    }
    Steps { rows }
}

// Puts the steps from kind i into rows.
fn steps_from(types: &[u8], met: Met, i: usize, rows: &mut [u64])
    requires { i < length rows.old }
    ensures { Noted (length (kinds_met met)) rows.old i (steps types.now (kinds_met met) i) rows.new }
{
    match type_list::parameters_of(types, met, i) {
        Parameters::Fault | Parameters::Flat(_) => {}
        Parameters::Struct(fields) | Parameters::Exception(fields) => {
            member_steps(Labels::NoLabels, types, fields, met, i, rows)
        }
        Parameters::Union {
            fields,
            discriminant,
            ..
        } => {
            let place = type_kinds::place_in(discriminant);
            note(met, place, i, rows);
            let labels = type_unions::labels_for(types, met, place);
            member_steps(labels, types, fields, met, i, rows)
        }
        Parameters::Sequence { .. } => {}
        Parameters::Array { element, .. } => note(met, type_kinds::place_in(element), i, rows),
        Parameters::Alias(inner) => note(met, type_kinds::place_in(inner), i, rows),
    }
}

// Puts the steps from kind i to its members into rows.
fn member_steps(labels: Labels, types: &[u8], fields: Fields, met: Met, i: usize, rows: &mut [u64])
    requires { i < length rows.old }
    ensures { Noted (length (kinds_met met)) rows.old i
        (λ z. any_stands (kinds_met met) z (types_of (members_of labels types.now fields))) rows.new }
{
    let mut at = fields.first;
    for _ in 0..fields.count {
        let Some((inner, next)) = type_kinds::member_at(
            labels,
            types,
            fields.start,
            at,
            fields.order,
        ) else {
            return;
        };
        note(met, type_kinds::place_in(inner), i, rows);
        at = next;
    }
}

// Puts the step from kind i to the kind at a place into rows, if one of the list stands there.
fn note(met: Met, place: Place, i: usize, rows: &mut [u64])
    requires { i < length rows.old }
    ensures { Noted (length (kinds_met met)) rows.old i (stands (kinds_met met) place) rows.new }
{
    if let Some(j) = met.position(place) {
        type_loops::add_step(rows, i, j);
    }
}
