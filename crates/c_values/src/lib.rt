// The C interface's functions about values: each answers 01's number, and a refusal leaves all that was lent as it was, but for a value's
// visits.
#![tactic(auto)]

ghost use Rattle.c_values.specs.Values.{value_at, ReadsValueC, PicksC};

use cdr::{Index, Order};
use value_meaning::ValueAnswer;

// A value read into the table, three numbers an item: 0, or 42, 30 to 40, or 50 to 56. Of an accepted one `numbers` gets the octets used
// and the items; `visits` gets the visits begun, also of a refused one. `little` says that the type is little-endian, `order` that the value is.
pub fn haulspar_value(
    types: &[u8],
    little: bool,
    value: &[u8],
    order: bool,
    start: usize,
    table: &mut [u64],
    numbers: &mut [u64; 2],
    visits: &mut u64,
) -> u32
    ensures { ReadsValueC types.now little (value_at value.now order start) table.old numbers.old result
        table.new numbers.new visits.new }
{
    let typed = Order::flagged(little);
    let recorded = Order::flagged(order);
    let first = Index(start);
    let answer = value::read_value(types, typed, value, recorded, first, table);
    match answer {
        ValueAnswer::Accepted {
            used,
            items,
            visits: begun,
        } => {
            *numbers = [used as u64, items as u64];
            *visits = begun;
            0
        }
        ValueAnswer::Refused {
            number,
            visits: begun,
        } => {
            *visits = begun;
            number
        }
    }
}

// An item of a value by its number: 0, or 42, 30 to 40, 50 to 55, or 49. `given` gets which case it is (0 signed, 1 unsigned, 2 single,
// 3 double) and its 64 bits. `little` says that the type is little-endian, `order` that the value is.
pub fn haulspar_item(
    types: &[u8],
    little: bool,
    value: &[u8],
    order: bool,
    start: usize,
    number: u64,
    given: &mut [u64; 2],
) -> u32
    ensures { PicksC types.now little (value_at value.now order start) number given.old result given.new }
{
    let typed = Order::flagged(little);
    let recorded = Order::flagged(order);
    let first = Index(start);
    let answer = value::read_item(types, typed, value, recorded, first, number);
    match answer {
        Ok(item) => {
            *given = [item.case(), item.bits()];
            0
        }
        Err(refusal) => refusal,
    }
}
