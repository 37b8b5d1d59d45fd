// Reading a value: its items into a lent table, or a single item by its number. 42 comes first, then the type's refusal, then the value's.
#![tactic(auto)]

ghost use Rattle.std.specs.Prelude.{◌≡◌};
ghost use Rattle.value_meaning.specs.Sinks.{source};
ghost use Rattle.value_meaning.specs.Visit.{checked};
ghost use Rattle.value_meaning.specs.Reading.{any_room, reading};
ghost use Rattle.value_meaning.specs.Value.{room_in, value_answer, table_after};
ghost use Rattle.type_list.specs.Arrays.{kinds_met};
ghost use Rattle.value.specs.Single.{given_by, item_answer};
ghost use Rattle.value_typed.specs.Typed.{FitsWords};
ghost use Rattle.value.specs.Inner.{ReadAs};

use cdr::{Index, Order};
use type_list::Met;
use value_cursor::Mode;
use value_items::ItemValue;
use value_meaning::ValueAnswer;

// Reads a value into the table, three numbers an item; a refusal leaves it as it was.
pub fn read_value(
    types: &[u8],
    torder: Order,
    value: &[u8],
    order: Order,
    start: Index,
    table: &mut [u64],
) -> ValueAnswer
    ensures { (result ≡ value_answer types.now torder (source value.now order start) (room_in table.old))
        × (table.new ≡ table_after types.now torder (source value.now order start) table.old) }
{
    let c = value_typed::check(types, torder, value.len());
    match c.judged {
        Ok(()) => read_into(types, c.met, value, order, start, table),
        Err(number) => ValueAnswer::Refused { number, visits: 0 },
    }
}

// Reads a value for the item of a number, counted from 0, or 01's number of the refusal.
pub fn read_item(
    types: &[u8],
    torder: Order,
    value: &[u8],
    order: Order,
    start: Index,
    number: u64,
) -> Result<ItemValue, u32>
    ensures { result ≡ item_answer types.now torder (source value.now order start) number }
{
    let c = value_typed::check(types, torder, value.len());
    c.judged?;
    pick(types, c.met, value, order, start, number)
}

// Reads under a checked type: a first walk finds a refusal, and a second one fills the table.
fn read_into(
    types: &[u8],
    met: Met,
    value: &[u8],
    order: Order,
    start: Index,
    table: &mut [u64],
) -> ValueAnswer
    requires { FitsWords (checked types.now (kinds_met met)) (source value.now order start) }
    ensures { ReadAs (checked types.now (kinds_met met)) (source value.now order start) table.old result table.new }
{
    let looking = Mode {
        order,
        start,
        limited: true,
        fill: false,
        first: 0,
    };
    let c = value_walk::walk(types, met, value, looking, table);
    if c.fault != 0 {
        return ValueAnswer::Refused {
            number: c.fault,
            visits: c.visits,
        };
    }
    let filling = Mode {
        fill: true,
        ..looking
    };
    let d = value_walk::walk(types, met, value, filling, table);
    ValueAnswer::Accepted {
        used: d.at,
        items: d.items,
        visits: d.visits,
    }
}

// Reads under a checked type for one item, which goes into a row of its own.
fn pick(
    types: &[u8],
    met: Met,
    value: &[u8],
    order: Order,
    start: Index,
    number: u64,
) -> Result<ItemValue, u32>
    requires { FitsWords (checked types.now (kinds_met met)) (source value.now order start) }
    ensures { result ≡ given_by (reading any_room (source value.now order start) (checked types.now (kinds_met met))) number }
{
    let mut row = [0u64; 3];
    let picking = Mode {
        order,
        start,
        limited: false,
        fill: true,
        first: number as usize,
    };
    let c = value_walk::walk(types, met, value, picking, &mut row);
    if c.fault != 0 {
        return Err(c.fault);
    }
    if c.items as u64 <= number {
        return Err(refusals::NO_SUCH_ITEM);
    }
    Ok(value_items::item_of(row[0], row[2]))
}
