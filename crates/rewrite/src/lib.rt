// Rewriting a value: the same value in a chosen order and from a chosen index on, into lent output. 42 comes first, then the type's refusal,
// then the value's, then 57.
#![tactic(auto)]

ghost use Rattle.std.specs.Prelude.{◌≡◌, length};
ghost use Rattle.value_meaning.specs.Sinks.{source};
ghost use Rattle.value_meaning.specs.Visit.{checked};
ghost use Rattle.rewrite_meaning.specs.Written.{target};
ghost use Rattle.rewrite_meaning.specs.Rewriting.{rewrite_answer, output_after};
ghost use Rattle.type_list.specs.Arrays.{kinds_met};
ghost use Rattle.rewrite.specs.Inner.{Readable, RoomForItems, Rewrites};

use cdr::{Index, Order};
use rewrite_meaning::RewriteAnswer;
use type_list::Met;
use value_cursor::Mode;

mod rows;

// The most octets of a value; and of a short one, for which less memory is cleared.
const MOST: usize = cdr::OCTETS_LIMIT;

const FEW: usize = 1024;

// Rewrites a value in the chosen order from the chosen index on, from the start of the output, and gives the octets written; a refusal
// leaves the output as it was. Every call takes 384 KB of stack for the value's items.
pub fn rewrite(
    types: &[u8],
    torder: Order,
    value: &[u8],
    order: Order,
    start: Index,
    chosen: Order,
    index: Index,
    out: &mut [u8],
) -> RewriteAnswer
    ensures { (result ≡ rewrite_answer types.now torder (source value.now order start) (target chosen index)
        (length out.old))
        ×
        (out.new ≡ output_after types.now torder (source value.now order start) (target chosen index)
        out.old) }
{
    let c = value_typed::check(types, torder, value.len());
    match c.judged {
        Ok(()) => rewrite_read(types, c.met, value, order, start, chosen, index, out),
        Err(number) => RewriteAnswer::Refused(number),
    }
}

// Rewrites under a checked type, with memory for as many items as the value can have.
fn rewrite_read(
    types: &[u8],
    met: Met,
    value: &[u8],
    order: Order,
    start: Index,
    chosen: Order,
    index: Index,
    out: &mut [u8],
) -> RewriteAnswer
    requires { Readable (checked types.now (kinds_met met)) (source value.now order start) }
    ensures { Rewrites (checked types.now (kinds_met met)) (source value.now order start) (target chosen index) out.old
        result out.new }
{
    if value.len() <= FEW {
        let mut few = [0u64; FEW * 3];
        return rewrite_with(
            types, met, value, order, start, chosen, index, &mut few, out,
        );
    }
    let mut most = [0u64; MOST * 3];
    rewrite_with(
        types, met, value, order, start, chosen, index, &mut most, out,
    )
}

// Rewrites under a checked type: a walk fills the table with the items, and those are counted, and then written.
fn rewrite_with(
    types: &[u8],
    met: Met,
    value: &[u8],
    order: Order,
    start: Index,
    chosen: Order,
    index: Index,
    table: &mut [u64],
    out: &mut [u8],
) -> RewriteAnswer
    requires { (Readable (checked types.now (kinds_met met)) (source value.now order start)) × (RoomForItems table.old value.now) }
    ensures { Rewrites (checked types.now (kinds_met met)) (source value.now order start) (target chosen index) out.old
        result out.new }
{
    let filling = Mode {
        order,
        start,
        limited: false,
        fill: true,
        first: 0,
    };
    let c = value_walk::walk(types, met, value, filling, table);
    if c.fault != 0 {
        return RewriteAnswer::Refused(c.fault);
    }
    let n = rows::count(table, c.items, index);
    if out.len() < n {
        return RewriteAnswer::Refused(refusals::NO_OUTPUT_ROOM);
    }
    rows::write(value, table, c.items, chosen, index, out);
    RewriteAnswer::Accepted(n)
}
