// The member of a union that a number chooses. Every function answers for any octets.
ghost use Rattle.std.specs.Prelude.{◌≡◌};
ghost use Rattle.type_kinds.specs.Members.{label_at, members_of};
ghost use Rattle.type_unions.specs.Arms.{counts, is_sought, first_sought, case_of, default_of, chosen_of};

use crate::Sought;
use cdr::{Index, Order, Place};
use type_kinds::{Fields, Inner, Labels};

// The default of a union that has none, a long of -1.
pub const NO_DEFAULT: u64 = 0xFFFFFFFF;

// Whether the label of a member counts, by the union's default and the member's number.
pub fn counts(default: u64, number: u64) -> bool
    ensures { result ≡ counts default number }
{
    true
}

// The member with this label, else the default, else none.
#[tactic(auto, unfolding(crate::specs::Arms::chosen_of))]
pub fn chosen_of(
    labels: Labels,
    types: &[u8],
    fields: Fields,
    default: u64,
    label: u64,
) -> Option<Inner>
    ensures { result ≡ chosen_of (members_of labels types.now fields) default label }
{
    let case = case_of(labels, types, fields, default, label);
    case.or_else(|| default_of(labels, types, fields, default))
}

// The first member with this label, of those whose labels count.
pub fn case_of(
    labels: Labels,
    types: &[u8],
    fields: Fields,
    default: u64,
    label: u64,
) -> Option<Inner>
    ensures { result ≡ case_of default label (members_of labels types.now fields) }
{
    first_sought(Sought::ByLabel { default, label }, labels, types, fields)
}

// The default member, if there is one.
#[tactic(auto, unfolding(crate::specs::Arms::default_of, crate::specs::Arms::member_no, choices::specs::Branch::choose))]
fn default_of(labels: Labels, types: &[u8], fields: Fields, default: u64) -> Option<Inner>
    ensures { result ≡ default_of (members_of labels types.now fields) default }
{
    if default == NO_DEFAULT {
        return None;
    }
    first_sought(Sought::ByNumber(default), labels, types, fields)
}

// Whether the member of a number is the one that is sought; its label, where it has one, stands at an index.
fn is_sought(
    sought: Sought,
    labels: Labels,
    types: &[u8],
    start: Place,
    order: Order,
    number: u64,
    at: Index,
) -> bool
    ensures { result ≡ is_sought sought number (label_at labels types.now start at order) }
{
    match sought {
        Sought::ByLabel { default, label } => {
            counts(default, number)
                && type_kinds::label_at(labels, types, start, at, order) == label
        }
        Sought::ByNumber(wanted) => number == wanted,
    }
}

// The first member that is sought.
fn first_sought(sought: Sought, labels: Labels, types: &[u8], fields: Fields) -> Option<Inner>
    ensures { result ≡ first_sought sought 0 (members_of labels types.now fields) }
{
    let mut at = fields.first;
    for k in 0..fields.count {
        let (inner, next) = type_kinds::member_at(labels, types, fields.start, at, fields.order)?;
        if is_sought(sought, labels, types, fields.start, fields.order, k, at) {
            return Some(inner);
        }
        at = next;
    }
    None
}
