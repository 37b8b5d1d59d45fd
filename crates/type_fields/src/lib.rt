// Where a kind may stand, and the defaults and labels of a union, checked. Every function answers for any octets.
#![tactic(auto)]

ghost use Rattle.std.specs.Prelude.{◌≡◌};
ghost use Rattle.type_fields.specs.Fields.{top_only, below_top, is_listed, kind_entry, bad_default, switch_step, label_before, label_step};

use cdr::{Index, Order, Place, Size};
use type_counts::Refusal;
use type_kinds::{Fields, Form, Labels};

// The levels left at the top.
pub const NESTING: u8 = 16;

// Whether a kind stands at the top alone.
fn top_only(kind: u64) -> bool
    ensures { result ≡ top_only kind }
{
    matches!(
        kind,
        type_numbers::NULL | type_numbers::VOID | type_numbers::EXCEPTION
    )
}

// Whether a kind of the top stands below it.
#[tactic(auto, unfolding(crate::specs::Fields::below_top))]
fn below_top(kind: u64, left: u8) -> bool
    ensures { result ≡ below_top kind left }
{
    left != NESTING && top_only(kind)
}

// Whether a kind of a form is listed.
fn is_listed(form: Form) -> bool
    ensures { result ≡ is_listed form }
{
    !matches!(form, Form::Unlisted)
}

// Whether a kind may stand where so many levels are left and so many kinds were met.
#[tactic(auto, unfolding(crate::specs::Fields::kind_entry))]
pub fn entry_of(form: Form, kind: u64, left: u8, count: usize) -> Result<(), Refusal>
    ensures { result ≡ kind_entry form kind left count }
{
    if !is_listed(form) {
        return Err(Refusal::NoSuchKind);
    }
    if below_top(kind, left) {
        return Err(Refusal::BelowTop);
    }
    if left == 0 {
        return Err(Refusal::TooDeep);
    }
    if type_numbers::KINDS_LIMIT <= count {
        return Err(Refusal::TooManyKinds);
    }
    Ok(())
}

// Whether a default is below -1 or not below the count.
#[tactic(auto, unfolding(crate::specs::Fields::bad_default))]
fn bad_default(default: u64, count: u64) -> bool
    ensures { result ≡ bad_default default count }
{
    default != type_unions::NO_DEFAULT && (type_kinds::LONG_HALF <= default || count <= default)
}

// Default and count of a union.
#[tactic(auto, unfolding(crate::specs::Fields::switch_step))]
pub fn switch_step(part: &[u8], at: Index, order: Order) -> Result<(u64, u64, Index), Refusal>
    ensures { result ≡ switch_step part.now at order }
{
    let (default, next) = cdr_fields::read_field(part, at, Size::Four, order).ok_or(Refusal::Ends)?;
    let (count, next) = type_counts::count_step(part, next, order)?;
    if bad_default(default, count) {
        return Err(Refusal::BadUnion);
    }
    Ok((default, count, next))
}

// Whether a label is that of one of the first members.
#[tactic(auto, unfolding(crate::specs::Fields::label_before))]
fn label_before(
    labels: Labels,
    types: &[u8],
    start: Place,
    order: Order,
    default: u64,
    done: u64,
    first: Index,
    label: u64,
) -> bool
    ensures { result ≡ label_before labels types.now start order default done first label }
{
    let fields = Fields {
        start,
        order,
        count: done,
        first,
    };
    type_unions::case_of(labels, types, fields, default, label).is_some()
}

// The label before a member, where members have labels: `done` members stand before it from `first` on.
pub fn label_step(
    labels: Labels,
    types: &[u8],
    part: &[u8],
    start: Place,
    order: Order,
    default: u64,
    done: u64,
    first: Index,
    at: Index,
) -> Result<Index, Refusal>
    ensures { result ≡ label_step labels types.now part.now start order default done first at }
{
    let Labels::Of { size, limit } = labels else {
        return Ok(at);
    };
    let (label, next) = cdr_fields::read_field(part, at, size, order).ok_or(Refusal::Ends)?;
    if type_unions::counts(default, done)
        && (type_unions::out_of_kind(limit, label)
            || label_before(labels, types, start, order, default, done, first, label))
    {
        return Err(Refusal::BadUnion);
    }
    Ok(next)
}
