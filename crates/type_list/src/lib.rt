// The kinds met in a TypeCode: where each stands, and what its parameters are. Every function answers for any octets and lists.
#![tactic(auto)]

ghost use Rattle.std.specs.Prelude.{◌≡◌, min};
ghost use Rattle.type_list.specs.Met.{kind_no, position_of, parameters_of, found_at, inside_of};
ghost use Rattle.type_list.specs.Arrays.{order_in, kinds_met, no_kinds, added};
ghost use Rattle.type_numbers.specs.Kinds.{kinds_limit};

use cdr::{Order, Place};
use type_kinds::{Inner, Kind};
use type_numbers::KINDS_LIMIT;
use type_parameters::Parameters;

// Of each kind met its place, the start of its encapsulation, and that encapsulation's order octet.
#[repr(C)]
#[derive(Clone, Copy)]
pub struct Met {
    pub places: [u16; KINDS_LIMIT],
    pub starts: [u16; KINDS_LIMIT],
    pub orders: [u8; KINDS_LIMIT],
    pub count: usize,
}

// The places that an entry of the list can hold are below this.
const ENTRY_LIMIT: usize = 65536;

// How many kinds the list has, of which its arrays have room for the most that a TypeCode may have.
pub fn held_in(count: usize) -> usize
    ensures { result ≡ min count kinds_limit }
{
    count.min(KINDS_LIMIT)
}

// The order that an entry of the list says.
fn order_in(octet: u8) -> Order
    ensures { result ≡ order_in octet }
{
    Order::flagged(octet == 1)
}

impl Met {
    // No kind met.
    pub fn none() -> Met
        ensures { result ≡ no_kinds }
    {
        Met {
            places: [0; KINDS_LIMIT],
            starts: [0; KINDS_LIMIT],
            orders: [0; KINDS_LIMIT],
            count: 0,
        }
    }

    // The list with one more kind, or as it is where it has no room for that.
    #[tactic(auto, unfolding(crate::specs::Arrays::added))]
    pub fn add(self, place: Place, start: Place, order: Order) -> Met
        ensures { result ≡ added self place start order }
    {
        let mut met = self;
        let i = met.count;
        if i < KINDS_LIMIT && place.0 < ENTRY_LIMIT && start.0 < ENTRY_LIMIT {
            met.places[i] = place.0 as u16;
            met.starts[i] = start.0 as u16;
            met.orders[i] = order.octet();
            met.count = i + 1;
        }
        met
    }

    // The position of the kind at a place.
    pub fn position(self, place: Place) -> Option<usize>
        ensures { result ≡ position_of (kinds_met self) place }
    {
        let n = held_in(self.count);
        self.places[..n].iter().position(|p| *p as usize == place.0)
    }
}

// The kind at a position, one at place 0 past the last.
pub fn entry_at(met: Met, j: usize) -> Kind
    ensures { result ≡ kind_no (kinds_met met) j }
{
    if held_in(met.count) <= j {
        return Kind {
            place: Place(0),
            start: Place(0),
            order: Order::Big,
        };
    }
    let place = Place(met.places[j] as usize);
    let start = Place(met.starts[j] as usize);
    let order = order_in(met.orders[j]);
    Kind {
        place,
        start,
        order,
    }
}

// The parameters of the kind at a position.
#[tactic(auto, unfolding(crate::specs::Met::parameters_of))]
pub fn parameters_of(types: &[u8], met: Met, j: usize) -> Parameters
    ensures { result ≡ parameters_of types.now (kinds_met met) j }
{
    type_parameters::parameters_at(types, entry_at(met, j))
}

// The parameters of the kind at a place, a fault where the list has none there.
#[tactic(auto, unfolding(crate::specs::Met::found_at))]
pub fn found_at(types: &[u8], met: Met, place: Place) -> Parameters
    ensures { result ≡ found_at types.now (kinds_met met) place }
{
    match met.position(place) {
        Some(j) => parameters_of(types, met, j),
        None => Parameters::Fault,
    }
}

// The parameters of a type inside another. The list is searched for an indirection's target alone.
#[tactic(auto, unfolding(crate::specs::Met::inside_of))]
pub fn inside_of(types: &[u8], met: Met, inner: Inner) -> Parameters
    ensures { result ≡ inside_of types.now (kinds_met met) inner }
{
    match inner {
        Inner::Here(kind) => type_parameters::parameters_at(types, kind),
        Inner::There(place) => found_at(types, met, place),
    }
}
