// Rewriting a value where no byte order is named.
#![tactic(auto)]

ghost use Rattle.std.specs.Prelude.{◌≡◌, length};
ghost use Rattle.value_meaning.specs.Sinks.{source};
ghost use Rattle.rewrite_meaning.specs.Written.{target, unnamed_order};
ghost use Rattle.rewrite_meaning.specs.Rewriting.{rewrite_answer, output_after};

use cdr::{Index, Order};
use rewrite_meaning::RewriteAnswer;

// The order that is meant where none is named.
const UNNAMED: Order = Order::Big;

// Rewrites a value where no order is named.
pub fn rewrite_unnamed(
    types: &[u8],
    torder: Order,
    value: &[u8],
    order: Order,
    start: Index,
    index: Index,
    out: &mut [u8],
) -> RewriteAnswer
    ensures { (result ≡ rewrite_answer types.now torder (source value.now order start) (target unnamed_order index)
        (length out.old))
        ×
        (out.new ≡ output_after types.now torder (source value.now order start) (target unnamed_order index)
        out.old) }
{
    rewrite::rewrite(types, torder, value, order, start, UNNAMED, index, out)
}
