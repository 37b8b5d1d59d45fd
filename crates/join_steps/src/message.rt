// What a fragment has in common with the first one.
ghost use Rattle.std.specs.Prelude.{◌≡◌, ◌≤◌, length};
ghost use Rattle.join_message.specs.Message.{id_end};
ghost use Rattle.join_steps.specs.Steps.{differs};

use frame::Header;

// The octets of the header and the request id.
pub const ID_END: usize = frame::HEADER_SIZE + 4;

// Whether a fragment has another minor version or byte order than the first one.
#[tactic(auto, unfolding(crate::specs::Steps::differs))]
pub(crate) fn differs(first: &[u8], h: Header) -> bool
    requires { id_end ≤ length first.now }
    ensures { result ≡ differs first.now h }
{
    let order = frame::order_flag(first[frame::FLAGS_OFFSET]);
    first[frame::MINOR_OFFSET] != h.minor || order.octet() != h.order.octet()
}
