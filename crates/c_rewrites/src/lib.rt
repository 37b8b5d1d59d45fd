// The C interface's functions that rewrite a value: each answers 01's number, and a refusal leaves all that was lent as it was.
#![tactic(auto)]

ghost use Rattle.cdr.specs.Align.{index_of};
ghost use Rattle.cdr.specs.Orders.{order_of_flag};
ghost use Rattle.rewrite_meaning.specs.Written.{target, unnamed_order};
ghost use Rattle.c_values.specs.Values.{value_at};
ghost use Rattle.c_rewrites.specs.Rewrites.{RewritesC};

use cdr::{Index, Order};

// A value rewritten in a chosen order from the chosen index on: 0, or 42, 30 to 40, 50 to 55, or 57. `out` gets the octets from its start on,
// and `count` their number. `little` says that the type is little-endian, `order` that the value is, `to` that the chosen order is.
pub fn haulspar_rewrite(
    types: &[u8],
    little: bool,
    value: &[u8],
    order: bool,
    start: usize,
    to: bool,
    index: usize,
    out: &mut [u8],
    count: &mut u64,
) -> u32
    ensures { RewritesC types.now little (value_at value.now order start) (target (order_of_flag to) (index_of index)) out.old
        count.old result out.new count.new }
{
    let typed = Order::flagged(little);
    let chosen = Order::flagged(to);
    let recorded = Order::flagged(order);
    let first = Index(start);
    let answer = rewrite::rewrite(
        types,
        typed,
        value,
        recorded,
        first,
        chosen,
        Index(index),
        out,
    );
    *count = answer.count(*count);
    answer.number()
}

// The same where no order is named.
pub fn haulspar_rewrite_unnamed(
    types: &[u8],
    little: bool,
    value: &[u8],
    order: bool,
    start: usize,
    index: usize,
    out: &mut [u8],
    count: &mut u64,
) -> u32
    ensures { RewritesC types.now little (value_at value.now order start) (target unnamed_order (index_of index)) out.old
        count.old result out.new count.new }
{
    let typed = Order::flagged(little);
    let recorded = Order::flagged(order);
    let first = Index(start);
    let at = Index(index);
    let answer = rewrite_unnamed::rewrite_unnamed(types, typed, value, recorded, first, at, out);
    *count = answer.count(*count);
    answer.number()
}
