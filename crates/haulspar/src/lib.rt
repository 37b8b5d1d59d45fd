// The C interface: what include/haulspar.h declares and ./archive builds. Each function calls that of the same name in a library, and states its
// clause again: a library's function isn't seen by C, and nothing in Rattle can depend on a crate that C sees.
#![tactic(auto)]

ghost use Rattle.cdr.specs.Align.{index_of};
ghost use Rattle.cdr.specs.Orders.{order_of_flag};
ghost use Rattle.rewrite_meaning.specs.Written.{target, unnamed_order};
ghost use Rattle.c_messages.specs.Answers.{DecodesC, EncodesC, JudgesC};
ghost use Rattle.c_joining.specs.Joining.{JoinsC};
ghost use Rattle.c_types.specs.Types.{ChecksC};
ghost use Rattle.c_values.specs.Values.{value_at, ReadsValueC, PicksC};
ghost use Rattle.c_rewrites.specs.Rewrites.{RewritesC};
ghost use Rattle.c_profiles.specs.Answers.{ReadsProfileC, FindsComponentC};
ghost use Rattle.c_headers.specs.Answers.{ReadsHeaderC, FindsContextC, FindsTargetC};
ghost use Rattle.c_head.specs.Heads.{WritesHeadC};

use join_places::Record;

// A line's characters to octets in `out`, and their number in `count`; 10, 11, or 27 where `out` is too short.
#[unsafe(no_mangle)]
pub extern "C" fn haulspar_decode(line: &[u8], out: &mut [u8], count: &mut u64) -> u32
    ensures { DecodesC line.now out.old count.old result out.new count.new }
{
    c_messages::haulspar_decode(line, out, count)
}

// Octets to upper-case digits in `out`, and their number in `count`; 27 where `out` is too short.
#[unsafe(no_mangle)]
pub extern "C" fn haulspar_encode(octets: &[u8], out: &mut [u8], count: &mut u64) -> u32
    ensures { EncodesC octets.now out.old count.old result out.new count.new }
{
    c_messages::haulspar_encode(octets, out, count)
}

// A message's octets judged; `header` gets minor, order, more, type, size, whether there is a request id, request id.
#[unsafe(no_mangle)]
pub extern "C" fn haulspar_frame(octets: &[u8], header: &mut [u64; 7]) -> u32
    ensures { JudgesC octets.now header.old result header.new }
{
    c_messages::haulspar_frame(octets, header)
}

// A line's octets joined by the lent record and the octets of its places: 0 to 3, 10, or 12 to 28. Where a message is written,
// `count` gets the number of its octets. The record is C's `struct haulspar_record`, each of its bools 0 or 1.
#[unsafe(no_mangle)]
pub extern "C" fn haulspar_join(
    octets: &[u8],
    record: &mut Record,
    places: &mut [u8],
    out: &mut [u8],
    count: &mut u64,
) -> u32
    ensures { JoinsC octets.now «record».old places.old out.old count.old
        (record { number = result; after = «record».new })
        places.new out.new count.new }
{
    c_joining::haulspar_join(octets, record, places, out, count)
}

// A TypeCode checked: 0, or 30 to 40, or 42. Of an accepted one `numbers` gets the octets used and the kinds written; `places`, `starts`
// and `orders` get what is met of each kind, 0 past the last.
#[unsafe(no_mangle)]
pub extern "C" fn haulspar_type(
    octets: &[u8],
    little: bool,
    places: &mut [u16; type_numbers::KINDS_LIMIT],
    starts: &mut [u16; type_numbers::KINDS_LIMIT],
    orders: &mut [u8; type_numbers::KINDS_LIMIT],
    numbers: &mut [u64; 2],
) -> u32
    ensures { ChecksC octets.now little places.old starts.old orders.old numbers.old result
        places.new starts.new orders.new numbers.new }
{
    c_types::haulspar_type(octets, little, places, starts, orders, numbers)
}

// A value read into the table, three numbers an item: 0, or 42, 30 to 40, or 50 to 56. Of an accepted one `numbers` gets the octets used
// and the items; `visits` gets the visits begun, also of a refused one. `little` says that the type is little-endian, `order` that the value is.
#[unsafe(no_mangle)]
pub extern "C" fn haulspar_value(
    types: &[u8],
    little: bool,
    value: &[u8],
    order: bool,
    start: usize,
    table: &mut [u64],
    numbers: &mut [u64; 2],
    visits: &mut u64,
) -> u32
    ensures { ReadsValueC types.now little (value_at value.now order start) table.old numbers.old result
        table.new numbers.new visits.new }
{
    c_values::haulspar_value(types, little, value, order, start, table, numbers, visits)
}

// An item of a value by its number: 0, or 42, 30 to 40, 50 to 55, or 49. `given` gets which case it is (0 signed, 1 unsigned, 2 single,
// 3 double) and its 64 bits. `little` says that the type is little-endian, `order` that the value is.
#[unsafe(no_mangle)]
pub extern "C" fn haulspar_item(
    types: &[u8],
    little: bool,
    value: &[u8],
    order: bool,
    start: usize,
    number: u64,
    given: &mut [u64; 2],
) -> u32
    ensures { PicksC types.now little (value_at value.now order start) number given.old result given.new }
{
    c_values::haulspar_item(types, little, value, order, start, number, given)
}

// A value rewritten in a chosen order from the chosen index on: 0, or 42, 30 to 40, 50 to 55, or 57. `out` gets the octets from its start on,
// and `count` their number. `little` says that the type is little-endian, `order` that the value is, `to` that the chosen order is.
#[unsafe(no_mangle)]
pub extern "C" fn haulspar_rewrite(
    types: &[u8],
    little: bool,
    value: &[u8],
    order: bool,
    start: usize,
    to: bool,
    index: usize,
    out: &mut [u8],
    count: &mut u64,
) -> u32
    ensures { RewritesC types.now little (value_at value.now order start) (target (order_of_flag to) (index_of index)) out.old
        count.old result out.new count.new }
{
    c_rewrites::haulspar_rewrite(types, little, value, order, start, to, index, out, count)
}

// The same where no order is named.
#[unsafe(no_mangle)]
pub extern "C" fn haulspar_rewrite_unnamed(
    types: &[u8],
    little: bool,
    value: &[u8],
    order: bool,
    start: usize,
    index: usize,
    out: &mut [u8],
    count: &mut u64,
) -> u32
    ensures { RewritesC types.now little (value_at value.now order start) (target unnamed_order (index_of index)) out.old
        count.old result out.new count.new }
{
    c_rewrites::haulspar_rewrite_unnamed(types, little, value, order, start, index, out, count)
}

// A profile body read: 0, or 42, or 60 to 64. `numbers` gets order octet, major, minor, the index of the host's first octet and its
// length without its zero, port, the index of the key's first octet and its length, number of components, octets after them.
#[unsafe(no_mangle)]
pub extern "C" fn haulspar_profile(octets: &[u8], numbers: &mut [u64; 10]) -> u32
    ensures { ReadsProfileC octets.now numbers.old result numbers.new }
{
    c_profiles::haulspar_profile(octets, numbers)
}

// A component of a profile body by its number, the first one 0: 0, or 42, 60 to 64, or 69. `found` gets its tag, the index of
// its octets' first one, and their length.
#[unsafe(no_mangle)]
pub extern "C" fn haulspar_component(octets: &[u8], number: u64, found: &mut [u64; 3]) -> u32
    ensures { FindsComponentC octets.now number found.old result found.new }
{
    c_profiles::haulspar_component(octets, number, found)
}

// A message's header read: 0, 42, 12 to 21, 75, or 70 to 74. `numbers` gets type, minor, order octet, id, response, status, the target's kind,
// tag or index, the index of its octets' first one and their length, its number of profiles, the index and the length of the operation and of
// the principal, number of contexts, and the place of the body. What the message hasn't is 0.
#[unsafe(no_mangle)]
pub extern "C" fn haulspar_header(octets: &[u8], numbers: &mut [u64; 17]) -> u32
    ensures { ReadsHeaderC octets.now numbers.old result numbers.new }
{
    c_headers::haulspar_header(octets, numbers)
}

// A context of a message's header by its number, the first one 0: 0, 42, 12 to 21, 75, 70 to 74, or 69. `found` gets its id, the index of its
// octets' first one, and their length.
#[unsafe(no_mangle)]
pub extern "C" fn haulspar_context(octets: &[u8], number: u64, found: &mut [u64; 3]) -> u32
    ensures { FindsContextC octets.now number found.old result found.new }
{
    c_headers::haulspar_context(octets, number, found)
}

// A profile, by its number, the first one 0, of the reference that a request is addressed to: as a context, with its tag.
#[unsafe(no_mangle)]
pub extern "C" fn haulspar_target(octets: &[u8], number: u64, found: &mut [u64; 3]) -> u32
    ensures { FindsTargetC octets.now number found.old result found.new }
{
    c_headers::haulspar_target(octets, number, found)
}

// All octets of a message before its body, gaps and reserved octets zero: 0, 42, 12 to 21, 75, 70 to 74, or 76. `out` gets them from its start
// on, and `count` their number.
#[unsafe(no_mangle)]
pub extern "C" fn haulspar_head(octets: &[u8], out: &mut [u8], count: &mut u64) -> u32
    ensures { WritesHeadC octets.now out.old count.old result out.new count.new }
{
    c_head::haulspar_head(octets, out, count)
}
