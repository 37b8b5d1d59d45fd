// How a check goes on: what it has met, and what it answers.
ghost use Rattle.std.specs.Prelude.{◌≡◌, false, ◌<◌, get_or, length};
ghost use Rattle.type_numbers.specs.Kinds.{kinds_limit};
ghost use Rattle.type_list.specs.Arrays.{entry_limit};
ghost use Rattle.type_walk.specs.Walk.{seen, seen_as, nothing_met, layout_barred, is_barred, entered, closed_at, refused_as, goes_on_at, on_step, after_type};
ghost use Rattle.type_walk.specs.Types.{target_step, name_step, switch_head, ended_at};
ghost use Rattle.type_counts.specs.Counts.{number_step, length_step};

use crate::{Walk, Walked};
use cdr::{Index, Order, Place};
use type_counts::Refusal;
use type_kinds::{Form, Labels, Layout};
use type_list::Met;

// No kind met.
pub(crate) fn nothing_met() -> Walk
    ensures { seen result ≡ nothing_met }
{
    Walk {
        met: Met::none(),
        barred: [false; type_numbers::KINDS_LIMIT],
    }
}

// The check ends.
pub(crate) fn refused(refusal: Refusal, walk: Walk) -> Walked
    ensures { seen_as result ≡ refused_as refusal (seen walk) }
{
    Walked {
        step: Err(refusal),
        walk,
    }
}

// The check goes on at an index.
pub(crate) fn goes_on(at: Index, walk: Walk) -> Walked
    ensures { seen_as result ≡ goes_on_at at (seen walk) }
{
    Walked { step: Ok(at), walk }
}

// The check goes on after a step, or ends.
pub(crate) fn on(step: Result<Index, Refusal>, walk: Walk) -> Walked
    ensures { seen_as result ≡ on_step step (seen walk) (λ i. goes_on_at i (seen walk)) }
{
    Walked { step, walk }
}

// The kinds met.
pub(crate) fn count(walk: Walk) -> usize
    ensures { result ≡ length (seen walk).kinds }
{
    type_list::held_in(walk.met.count)
}

// Whether the kind at a position is no target yet.
fn barred_at(barred: [bool; type_numbers::KINDS_LIMIT], i: usize) -> bool
    ensures { result ≡ get_or barred i false }
{
    i < type_numbers::KINDS_LIMIT && barred[i]
}

// The target of an indirection is judged.
pub(crate) fn target_step(walk: Walk, place: Place, next: Index) -> Result<Index, Refusal>
    ensures { on_step result (seen walk) (λ i. goes_on_at i (seen walk)) ≡ target_step (seen walk) place next }
{
    let i = walk.met.position(place).ok_or(Refusal::BadTarget)?;
    if barred_at(walk.barred, i) {
        return Err(Refusal::BadTarget);
    }
    Ok(next)
}

// Whether a kind of a layout is no target while it is read.
fn layout_barred(layout: Layout) -> bool
    ensures { result ≡ layout_barred layout }
{
    !matches!(layout, Layout::Struct | Layout::Union)
}

// Whether a kind of a form is no target while it is read.
fn is_barred(form: Form) -> bool
    ensures { result ≡ is_barred form }
{
    match form {
        Form::Unlisted | Form::Plain | Form::Bounded => true,
        Form::Composite(layout) => layout_barred(layout),
    }
}

// One more kind is met.
pub(crate) fn enter(walk: Walk, place: Place, start: Place, order: Order, form: Form) -> Walk
    requires { (length (seen walk).kinds < kinds_limit) × (place.0 < entry_limit) × (start.0 < entry_limit) }
    ensures { seen result ≡ entered (seen walk) place start order form }
{
    let met = walk.met;
    let mut barred = walk.barred;
    let i = type_list::held_in(met.count);
    barred[i] = is_barred(form);
    Walk {
        met: met.add(place, start, order),
        barred,
    }
}

// The kind at a position is read to its end.
pub(crate) fn close(walk: Walk, here: usize) -> Walk
    requires { here < kinds_limit }
    ensures { seen result ≡ closed_at (seen walk) here }
{
    let met = walk.met;
    let mut barred = walk.barred;
    barred[here] = false;
    Walk { met, barred }
}

// The bound of a string, the kind at a position.
pub(crate) fn bounded(part: &[u8], order: Order, at: Index, walk: Walk, here: usize) -> Walked
    requires { here < kinds_limit }
    ensures { seen_as result ≡ on_step (number_step part.now at order) (seen walk) (λ next. goes_on_at next (closed_at (seen walk) here)) }
{
    match type_counts::number_step(part, at, order) {
        Err(refusal) => refused(refusal, walk),
        Ok(next) => goes_on(next, close(walk, here)),
    }
}

// The parameters have to end with their encapsulation.
#[tactic(auto, unfolding(crate::specs::Types::ended_at))]
pub(crate) fn ended(walked: Walked, here: usize, length: usize, end: usize) -> Walked
    requires { here < kinds_limit }
    ensures { seen_as result ≡ ended_at here length end (seen_as walked) }
{
    let walk = walked.walk;
    match walked.step {
        Err(refusal) => refused(refusal, walk),
        Ok(i) if i.0 == length => goes_on(Index(end), close(walk, here)),
        Ok(_) => refused(Refusal::BadEncapsulation, walk),
    }
}

// The bound after a sequence's type.
pub(crate) fn then_number(part: &[u8], order: Order, walked: Walked) -> Walked
    ensures { seen_as result ≡ after_type (seen_as walked) (λ i w. on_step (number_step part.now i order) w (λ next. goes_on_at next w)) }
{
    on(
        walked
            .step
            .and_then(|i| type_counts::number_step(part, i, order)),
        walked.walk,
    )
}

// The length after an array's type.
pub(crate) fn then_length(part: &[u8], order: Order, walked: Walked) -> Walked
    ensures { seen_as result ≡ after_type (seen_as walked) (λ i w. on_step (length_step part.now i order) w (λ next. goes_on_at next w)) }
{
    on(
        walked
            .step
            .and_then(|i| type_counts::length_step(part, i, order)),
        walked.walk,
    )
}

// A member's name behind its label.
#[tactic(auto, unfolding(crate::specs::Types::name_step))]
pub(crate) fn name_after(
    labels: Labels,
    types: &[u8],
    part: &[u8],
    start: Place,
    order: Order,
    default: u64,
    done: u64,
    first: Index,
    at: Index,
) -> Result<Index, Refusal>
    ensures { result ≡ name_step labels types.now part.now start order default done first at }
{
    let i = type_fields::label_step(labels, types, part, start, order, default, done, first, at)?;
    type_counts::text_step(part, i, order)
}

// Default and count of a union, if its discriminant may be one.
pub(crate) fn switch_head(
    labels: Labels,
    part: &[u8],
    at: Index,
    order: Order,
) -> Result<(u64, u64, Index), Refusal>
    ensures { result ≡ switch_head labels part.now at order }
{
    match labels {
        Labels::NoLabels => Err(Refusal::BadUnion),
        Labels::Of { .. } => type_fields::switch_step(part, at, order),
    }
}
