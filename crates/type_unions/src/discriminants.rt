// What a discriminant's type says of labels.
ghost use Rattle.std.specs.Prelude.{◌≡◌};
ghost use Rattle.type_kinds.specs.declared.Labels.TheVariants.{Of};
ghost use Rattle.type_list.specs.Arrays.{kinds_met};
ghost use Rattle.type_unions.specs.Discriminants.{leaf_labels, inert_labels, discriminant_of, labels_for, out_of_kind};

use crate::Discriminant;
use cdr::{Place, Size};
use type_kinds::{Inert, Labels};
use type_list::Met;
use type_parameters::Parameters;

// Labels of a size, below a limit.
fn sized(size: Size, limit: u64) -> Labels
    ensures { result ≡ Of size limit }
{
    Labels::Of { size, limit }
}

// The labels of a kind without parameters.
#[tactic(auto, unfolding(crate::specs::Discriminants::leaf_labels))]
fn leaf_labels(kind: u64) -> Labels
    ensures { result ≡ leaf_labels kind }
{
    match kind {
        type_numbers::SHORT | type_numbers::USHORT => sized(Size::Two, 0),
        type_numbers::LONG | type_numbers::ULONG => sized(Size::Four, 0),
        type_numbers::BOOLEAN => sized(Size::One, 2),
        type_numbers::CHAR => sized(Size::One, 0),
        type_numbers::LONG_LONG | type_numbers::UNSIGNED_LONG_LONG => sized(Size::Eight, 0),
        _ => Labels::NoLabels,
    }
}

// The labels of a kind that holds no other.
fn inert_labels(inert: Inert) -> Labels
    ensures { result ≡ inert_labels inert }
{
    match inert {
        Inert::Leaf(kind) => leaf_labels(kind),
        Inert::Text(_) | Inert::Objref => Labels::NoLabels,
        Inert::Enum(names) => sized(Size::Four, names),
    }
}

// What the parameters of a discriminant's type say.
fn discriminant_of(parameters: Parameters) -> Discriminant
    ensures { result ≡ discriminant_of parameters }
{
    match parameters {
        Parameters::Flat(inert) => Discriminant::Says(inert_labels(inert)),
        Parameters::Alias(inner) => Discriminant::Through(inner),
        Parameters::Fault
        | Parameters::Struct(_)
        | Parameters::Exception(_)
        | Parameters::Union { .. }
        | Parameters::Sequence { .. }
        | Parameters::Array { .. } => Discriminant::Says(Labels::NoLabels),
    }
}

// The labels of a union whose discriminant stands at a place.
pub fn labels_for(types: &[u8], met: Met, place: Place) -> Labels
    ensures { result ≡ labels_for types.now (kinds_met met) place }
{
    let mut at = place;
    for _ in 0..type_numbers::KINDS_LIMIT {
        match discriminant_of(type_list::found_at(types, met, at)) {
            Discriminant::Through(next) => {
                at = type_kinds::place_in(next);
            }
            Discriminant::Says(labels) => {
                return labels;
            }
        }
    }
    Labels::NoLabels
}

// Whether a label is not below its limit.
#[tactic(auto, unfolding(crate::specs::Discriminants::out_of_kind))]
pub fn out_of_kind(limit: u64, label: u64) -> bool
    ensures { result ≡ out_of_kind limit label }
{
    limit != 0 && limit <= label
}
