// A reader of a profile body: a struct that holds the body's octets, an index in them and their byte order, and a thin call for each part in
// turn. Each takes the struct apart and leaves the work to `profile_parts`. 42, 64 and the extra octets are of the whole body: `profile::read` gives them.
#![tactic(auto)]

ghost use Rattle.std.specs.Prelude.{◌≡◌};
ghost use Rattle.cdr.specs.Align.{index_of};
ghost use Rattle.cdr.specs.declared.Order.TheVariants.{Big};
ghost use Rattle.profile_parts.specs.Parts.{order_part_at, version_at, host_at, port_at, key_at, component_count_at, component_at};

use cdr::{Index, Order};
use cdr_fields::Extent;
use profile_parts::Refusal;

// A body's octets, the index of the part that is read next, and the byte order of its numbers.
#[derive(Clone, Copy)]
pub struct Reader<'a> {
    pub octets: &'a [u8],
    pub at: Index,
    pub order: Order,
}

// A reader at a body's first octet, big-endian until the order octet says otherwise.
pub fn new(octets: &[u8]) -> Reader<'_>
    ensures { (result.octets ≡ octets.entry) × (result.at ≡ index_of 0) × (result.order ≡ Big) }
{
    Reader {
        octets,
        at: Index::START,
        order: Order::Big,
    }
}

// The same octets, read on at another index in an order.
pub fn moved(r: Reader<'_>, at: Index, order: Order) -> Reader<'_>
    ensures { (result.octets ≡ r.entry.octets) × (result.at ≡ at) × (result.order ≡ order) }
{
    Reader { at, order, ..r }
}

// The order octet.
pub fn order(r: Reader<'_>) -> Result<(Order, Index), Refusal>
    ensures { result ≡ order_part_at r.entry.octets.now r.entry.at }
{
    profile_parts::order_at(r.octets, r.at)
}

// The version.
pub fn version(r: Reader<'_>) -> Result<(u8, u8, Index), Refusal>
    ensures { result ≡ version_at r.entry.octets.now r.entry.at }
{
    profile_parts::version_at(r.octets, r.at)
}

// The host, without its final zero.
pub fn host(r: Reader<'_>) -> Result<(Extent, Index), Refusal>
    ensures { result ≡ host_at r.entry.octets.now r.entry.at r.entry.order }
{
    profile_parts::host_at(r.octets, r.at, r.order)
}

// The port.
pub fn port(r: Reader<'_>) -> Result<(u64, Index), Refusal>
    ensures { result ≡ port_at r.entry.octets.now r.entry.at r.entry.order }
{
    profile_parts::port_at(r.octets, r.at, r.order)
}

// The key.
pub fn key(r: Reader<'_>) -> Result<(Extent, Index), Refusal>
    ensures { result ≡ key_at r.entry.octets.now r.entry.at r.entry.order }
{
    profile_parts::key_at(r.octets, r.at, r.order)
}

// The number of components.
pub fn count(r: Reader<'_>) -> Result<(u64, Index), Refusal>
    ensures { result ≡ component_count_at r.entry.octets.now r.entry.at r.entry.order }
{
    profile_parts::count_at(r.octets, r.at, r.order)
}

// The component at the reader's index.
pub fn component(r: Reader<'_>) -> Result<(u64, Extent, Index), Refusal>
    ensures { result ≡ component_at r.entry.octets.now r.entry.at r.entry.order }
{
    profile_parts::component_at(r.octets, r.at, r.order)
}

// The component at an index of a body, by a reader that is made for it: a caller with plain parameters.
pub fn component_in(octets: &[u8], at: Index, order: Order) -> Result<(u64, Extent, Index), Refusal>
    ensures { result ≡ component_at octets.now at order }
{
    component(moved(new(octets), at, order))
}
