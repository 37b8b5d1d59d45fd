// The fields of a header.
ghost use Rattle.std.specs.Prelude.{◌≡◌, ◌+◌, ◌%◌, ◌≤◌, length};
ghost use Rattle.cdr.specs.Number.{number_at};

use cdr::{Index, Order, Size};

// The unsigned long at a place that is a multiple of 4.
pub(crate) fn word(octets: &[u8], at: usize, order: Order) -> u32
    requires { (at % 4 ≡ 0) × (at + 4 ≤ length octets.now) }
    ensures { result ≡ number_at octets.now at 4 order }
{
    match cdr_fields::read_field(octets, Index(at), Size::Four, order) {
        Some((value, _)) => value as u32,
        None => 0,
    }
}
