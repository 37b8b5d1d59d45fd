// The C interface's function about types: it answers 01's number, and a refusal leaves all that was lent as it was.
#![tactic(auto)]

ghost use Rattle.std.specs.Prelude.{◌≡◌};
ghost use Rattle.cdr.specs.Orders.{order_octet};
ghost use Rattle.type_list.specs.Arrays.{order_in, kinds_met};
ghost use Rattle.c_types.specs.Types.{Entries, ChecksC};

use cdr::Order;
use type_list::Met;

// The order octet of an entry: what is not 1 is big.
fn octet_of(order: u8) -> u8
    ensures { result ≡ order_octet (order_in order) }
{
    u8::from(order == 1)
}

// The arrays of the kinds met, with 0 past the last, filled in place: `Met::add` would copy them for each kind.
fn gather(met: Met) -> Met
    ensures { Entries (kinds_met met) result }
{
    let mut all = Met::none();
    for i in 0..type_list::held_in(met.count) {
        all.places[i] = met.places[i];
        all.starts[i] = met.starts[i];
        all.orders[i] = octet_of(met.orders[i]);
    }
    all
}

// A TypeCode checked: 0, or 30 to 40, or 42. Of an accepted one `numbers` gets the octets used and the kinds written; `places`, `starts`
// and `orders` get what is met of each kind, 0 past the last.
pub fn haulspar_type(
    octets: &[u8],
    little: bool,
    places: &mut [u16; type_numbers::KINDS_LIMIT],
    starts: &mut [u16; type_numbers::KINDS_LIMIT],
    orders: &mut [u8; type_numbers::KINDS_LIMIT],
    numbers: &mut [u64; 2],
) -> u32
    ensures { ChecksC octets.now little places.old starts.old orders.old numbers.old result
        places.new starts.new orders.new numbers.new }
{
    let checked = typecode::check_type(octets, Order::flagged(little));
    if let Ok((used, kinds)) = checked.answer {
        let met = gather(checked.met);
        let at = met.places;
        let from = met.starts;
        let in_order = met.orders;
        *places = at;
        *starts = from;
        *orders = in_order;
        *numbers = [used as u64, kinds as u64];
    }
    typecode::type_answer_number(checked.answer)
}
