// All octets of a message before its body, written back: gaps and reserved octets zero; 76 where the output is too short.
#![tactic(auto)]

ghost use Rattle.std.specs.Prelude.{◌≡◌, length};
ghost use Rattle.header_head.specs.Head.{head_answer, head_after};
ghost use Rattle.header_head.specs.Inner.{WritesHead};

use cdr::{Index, Order};
use cdr_fields::Extent;
use header::MessageHeader;
use header_parts::Refusal;

mod copies;

// The frame's octets.
const FRAME: Extent = Extent {
    from: Index::START,
    length: frame::HEADER_SIZE,
};

// Writes all octets of a message before its body to the output, from its start.
pub fn head(s: &[u8], out: &mut [u8]) -> Result<usize, Refusal>
    ensures { (result ≡ head_answer s.now (length out.old)) × (out.new ≡ head_after s.now out.old) }
{
    match header::read(s)? {
        MessageHeader::Called(q) => write(s, header_layout::REQUEST, q.order, q.minor, q.body, out),
        MessageHeader::Answered(a) => write(s, header_layout::REPLY, a.order, a.minor, a.body, out),
    }
}

// Writes the frame, the header's parts and the gap before the body, if there is room for them.
fn write(
    s: &[u8],
    kind: u8,
    order: Order,
    minor: u8,
    body: usize,
    out: &mut [u8],
) -> Result<usize, Refusal>
    ensures { WritesHead s.now kind order minor body out.old result out.new }
{
    if out.len() < body {
        return Err(Refusal::NoRoom);
    }
    cdr_write::write_octets(out, 0, cdr_fields::octets_in(s, FRAME));
    let end = copies::parts(s, kind, order, minor, frame::HEADER_SIZE, out);
    copies::zeros(end, body, out);
    Ok(body)
}
