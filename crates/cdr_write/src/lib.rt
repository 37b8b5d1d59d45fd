// Numbers and octets of CDR, written into lent memory where they fit.
#![tactic(auto)]

ghost use Rattle.std.specs.Prelude.{replicate};
ghost use Rattle.cdr.specs.Align.{octets};
ghost use Rattle.cdr.specs.Number.{octets_of};
ghost use Rattle.cdr_write.specs.Write.{Stored};

use cdr::{Order, Size};

mod store;

// Writes a number of the size from `at` on; of a larger number, the least significant octets.
pub fn write_number(out: &mut [u8], at: usize, size: Size, order: Order, x: u64) -> Option<usize>
    ensures { Stored out.old at (octets_of order (octets size) x) result out.new }
{
    let count = size.octets();
    if cdr::fits(out.len(), at, count) {
        store::number(out, at, size, order, x);
        return Some(at + count);
    }
    None
}

// Writes zeros from `at` on, as a gap holds them.
pub fn write_zeros(out: &mut [u8], at: usize, count: usize) -> Option<usize>
    ensures { Stored out.old at (replicate count 0) result out.new }
{
    if cdr::fits(out.len(), at, count) {
        store::zeros(out, at, count);
        return Some(at + count);
    }
    None
}

// Writes octets from `at` on, as they are.
pub fn write_octets(out: &mut [u8], at: usize, octets: &[u8]) -> Option<usize>
    ensures { Stored out.old at «octets».now result out.new }
{
    if cdr::fits(out.len(), at, octets.len()) {
        store::copy(out, at, octets);
        return Some(at + octets.len());
    }
    None
}
