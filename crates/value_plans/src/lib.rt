// What a walk over a value needs beside the cycle of its readers: visits that enter nothing, and plans of structs whose members are all
// kinds without parameters. Every function answers for any octets, list of kinds and table.
#![tactic(auto)]

ghost use Rattle.std.specs.Prelude.{◌≡◌, List, cond, ℕ, ltb, get_or};
ghost use Rattle.type_kinds.specs.declared.Labels.TheVariants.{NoLabels};
ghost use Rattle.type_kinds.specs.Members.{members_of, types_of};
ghost use Rattle.type_kinds.specs.declared.Kind.{Kind};
ghost use Rattle.type_list.specs.Arrays.{kinds_met};
ghost use Rattle.type_unions.specs.Shapes.{Shape, shape_of};
ghost use Rattle.value_meaning.specs.Sinks.{repeats};
ghost use Rattle.value_meaning.specs.Visit.{Checked, checked};
ghost use Rattle.value_meaning.specs.Reading.{reads};
ghost use Rattle.value_cursor.specs.Walk.{sink_of, source_of, state_of};
ghost use Rattle.value_plans.specs.Plans.{plan_steps, plan_visit, no_leaf, inert_kind, leaf_kind, plan_of};

use type_kinds::{Fields, Inert, Labels};
use type_list::Met;
use type_parameters::Parameters;
use value_cursor::{Cursor, Mode};

// The most members of a plan.
pub const MOST_MEMBERS: usize = 16;

// A struct whose members are all kinds without parameters: the kinds of its members, and their number.
#[derive(Clone, Copy)]
pub struct Plan {
    pub kinds: [u8; MOST_MEMBERS],
    pub count: u64,
}

// The same, as a number of members.
const MEMBERS: u64 = MOST_MEMBERS as u64;

// What stands for a kind that a plan cannot hold.
const NO_LEAF: u8 = 255;

// A visit that enters nothing, with so many levels left.
pub fn flat(
    value: &[u8],
    mode: Mode,
    table: &mut [u64],
    inert: Inert,
    left: u32,
    cursor: Cursor,
) -> Cursor
    ensures { (t : Checked) → state_of result table.new ≡ reads (sink_of mode) (source_of mode value.now) t left (Shape.flat inert)
        (state_of cursor table.old) }
{
    if left == 0 {
        return cursor.refused(refusals::TOO_MANY_OPEN);
    }
    value_leaves::inert(value, mode, table, inert, cursor.visit())
}

// A kind as an octet.
fn narrow(kind: u64) -> u8
    ensures { result ≡ cond (ltb kind no_leaf) kind no_leaf }
{
    // NO_LEAF is the largest octet, so the number of no kind that a plan holds.
    u8::try_from(kind).unwrap_or(NO_LEAF)
}

// The kind of what holds no other.
#[tactic(auto, unfolding(crate::specs::Plans::inert_kind))]
fn inert_kind(inert: Inert) -> u8
    ensures { result ≡ inert_kind inert }
{
    match inert {
        Inert::Leaf(kind) => narrow(kind),
        Inert::Text(_) | Inert::Objref | Inert::Enum(_) => NO_LEAF,
    }
}

// The kind of a member that has no parameters.
fn leaf_of(e: Parameters) -> u8
    ensures { (v : List ℕ) (ks : List Kind) → result ≡ leaf_kind (shape_of v ks e) }
{
    match e {
        Parameters::Flat(inert) => inert_kind(inert),
        _ => NO_LEAF,
    }
}

// The plan of a struct, if it has one and there are levels for it.
pub fn plan_of(types: &[u8], met: Met, fields: Fields, left: u32) -> Option<Plan>
    ensures { result ≡ plan_of (checked types.now (kinds_met met)) left fields.count (types_of (members_of NoLabels types.now fields)) }
{
    let start = fields.start;
    let order = fields.order;
    let count = fields.count;
    if MEMBERS < count {
        return None;
    }
    if left < 2 {
        return None;
    }
    let mut kinds = [0; MOST_MEMBERS];
    let mut at = fields.first;
    for k in 0..count {
        let (inner, next) = type_kinds::member_at(Labels::NoLabels, types, start, at, order)?;
        let kind = leaf_of(type_list::inside_of(types, met, inner));
        if kind == NO_LEAF {
            return None;
        }
        kinds[k as usize] = kind;
        at = next;
    }
    Some(Plan { kinds, count })
}

// The kind of a plan's member, 0 past its end.
fn kind_at(kinds: [u8; MOST_MEMBERS], k: u64) -> u64
    ensures { result ≡ get_or kinds k 0 }
{
    if k < MEMBERS {
        kinds[k as usize] as u64
    } else {
        0
    }
}

// The members of a struct that has a plan.
fn plan_members(value: &[u8], mode: Mode, table: &mut [u64], plan: Plan, cursor: Cursor) -> Cursor
    ensures { state_of result table.new
        ≡ plan_steps (sink_of mode) (source_of mode value.now) plan.kinds 0 plan.count (state_of cursor table.old) }
{
    let kinds = plan.kinds;
    let count = plan.count;
    let mut d = cursor;
    for k in 0..count {
        d = value_leaves::leaf(value, mode, table, kind_at(kinds, k), d.visit());
        if d.fault != 0 {
            return d;
        }
    }
    d
}

// So many structs that have a plan.
pub fn structs(
    value: &[u8],
    mode: Mode,
    table: &mut [u64],
    plan: Plan,
    count: u64,
    cursor: Cursor,
) -> Cursor
    ensures { state_of result table.new ≡ repeats (plan_visit mode value.now plan) count (state_of cursor table.old) }
{
    let mut d = cursor;
    for _ in 0..count {
        d = plan_members(value, mode, table, plan, d.visit());
        if d.fault != 0 {
            return d;
        }
    }
    d
}
