// A number behind its gap, written into lent memory where it fits; indices count from the memory's first octet.
#![tactic(auto)]

ghost use Rattle.cdr.specs.Align.{octets};
ghost use Rattle.cdr_fields.specs.Encapsulation.{start};
ghost use Rattle.cdr_write.specs.Pieces.{target};
ghost use Rattle.cdr_write.specs.Write.{Stored};
ghost use Rattle.cdr_pieces.specs.PartPieces.{number_piece, piece_octets};

use cdr::{Index, Order, Size};

// Writes a number of the size behind the smallest gap at `at`, all zero.
pub fn put_number(out: &mut [u8], at: usize, size: Size, order: Order, x: u64) -> Option<usize>
    ensures { Stored out.old at (piece_octets (target order start) at (number_piece (octets size) x)) result out.new }
{
    let gap = Index(at).gap(size);
    let count = gap + size.octets();
    if cdr::fits(out.len(), at, count) {
        cdr_write::write_zeros(out, at, gap);
        cdr_write::write_number(out, at + gap, size, order, x);
        return Some(at + count);
    }
    None
}
