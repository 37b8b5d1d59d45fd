// The unions of a TypeCode: what a discriminant's type says of labels, and which member a number chooses. Every function answers for any
// octets and lists.
#![tactic(auto)]

use type_kinds::{Inner, Labels};

mod arms;
mod discriminants;

pub use arms::{NO_DEFAULT, case_of, chosen_of, counts};
pub use discriminants::{labels_for, out_of_kind};

// What a discriminant's parameters say: an alias leads on, and every other kind has its labels or none.
#[derive(Clone, Copy)]
pub enum Discriminant {
    Through(Inner),
    Says(Labels),
}

// What a member is sought by: a label, under the union's default, or its number.
#[derive(Clone, Copy)]
pub enum Sought {
    ByLabel { default: u64, label: u64 },
    ByNumber(u64),
}
