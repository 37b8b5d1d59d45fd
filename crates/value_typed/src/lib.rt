// What a value is read under: 42, then the type's refusal, or the kinds of an accepted type.
#![tactic(auto)]

ghost use Rattle.std.specs.Prelude.{◌≡◌, ◌||◌, ltb};
ghost use Rattle.cdr.specs.Limit.{octets_limit};
ghost use Rattle.value_typed.specs.Typed.{typed_by, judged_by, typed_for};

use cdr::Order;
use type_list::Met;
use typecode::NoType;

// What a value is read under: whether it may be, or 01's number of the refusal, and the kinds of an accepted type.
#[derive(Clone, Copy)]
pub struct Typed {
    pub judged: Result<(), u32>,
    pub met: Met,
}

// The most octets of a type and of a value.
const LIMIT: usize = cdr::OCTETS_LIMIT;

// Checks the type of a value of so many octets.
pub fn check(types: &[u8], torder: Order, octets: usize) -> Typed
    ensures { typed_by result ≡ typed_for types.now torder «octets» }
{
    if over_long(types.len(), octets) {
        return Typed {
            judged: Err(refusals::TOO_LONG),
            met: Met::none(),
        };
    }
    let c = typecode::check_type(types, torder);
    Typed {
        judged: judge(c.answer),
        met: c.met,
    }
}

// Whether a value may be read under a type that was checked, or 01's number of the refusal.
fn judge(answer: Result<(usize, usize), NoType>) -> Result<(), u32>
    ensures { result ≡ judged_by answer }
{
    match answer {
        Ok(_) => Ok(()),
        Err(NoType::Refused(refusal)) => Err(refusal.number()),
        Err(NoType::Loop) => Err(refusals::LOOP),
    }
}

// Whether type or value has too many octets.
fn over_long(types: usize, value: usize) -> bool
    ensures { result ≡ (ltb octets_limit types || ltb octets_limit value) }
{
    LIMIT < types || LIMIT < value
}
