// The check of a TypeCode: octets used and kinds written, or 01's refusal, 30 to 40 and 42; and the kinds met, for whoever reads values.
#![tactic(auto)]

ghost use Rattle.std.specs.Prelude.{◌≡◌, Err};
ghost use Rattle.type_list.specs.Arrays.{kinds_met};
ghost use Rattle.typecode.specs.TypeCode.{type_answer_number, without_type, loop_last, checked_type, told_by};

use cdr::{Index, Order};
use type_counts::Refusal;
use type_list::Met;

// Why octets are no type: the walk refuses them, or some kind returns to itself.
#[derive(Clone, Copy)]
pub enum NoType {
    Refused(Refusal),
    Loop,
}

// The paper's number of what the check of a type answers, 0 for an accepted type.
pub fn type_answer_number(answer: Result<(usize, usize), NoType>) -> u32
    ensures { result ≡ type_answer_number answer }
{
    match answer {
        Ok(_) => 0,
        Err(NoType::Refused(refusal)) => refusal.number(),
        Err(NoType::Loop) => refusals::LOOP,
    }
}

// The answer, and the kinds met, none for a refused type.
#[derive(Clone, Copy)]
pub struct CheckedType {
    pub answer: Result<(usize, usize), NoType>,
    pub met: Met,
}

// The answer where there is no type.
#[tactic(auto, unfolding(type_list::specs::Arrays::kinds_met, type_list::specs::Arrays::kinds_from))]
fn refused_with(reason: NoType) -> CheckedType
    ensures { told_by result ≡ without_type (Err reason) }
{
    CheckedType {
        answer: Err(reason),
        met: Met::none(),
    }
}

// The last test of all: whether some kind returns to itself.
fn loop_last(types: &[u8], end: Index, met: Met) -> CheckedType
    ensures { told_by result ≡ loop_last types.now end (kinds_met met) }
{
    if type_steps::loops_back(types, met) {
        return refused_with(NoType::Loop);
    }
    CheckedType {
        answer: Ok((end.0, type_list::held_in(met.count))),
        met,
    }
}

// Checks octets as a TypeCode in a byte order.
#[tactic(auto, unfolding(crate::specs::TypeCode::checked_type))]
pub fn check_type(types: &[u8], order: Order) -> CheckedType
    ensures { told_by result ≡ checked_type types.now order }
{
    let walked = type_walk::walk_type(types, order);
    match walked.step {
        Err(refusal) => refused_with(NoType::Refused(refusal)),
        Ok(end) => loop_last(types, end, walked.walk.met),
    }
}
