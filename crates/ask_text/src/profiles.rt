// The text of a profile body behind its version: `HOST PORT KEY COMPONENTS EXTRA`.
ghost use Rattle.std.specs.Prelude.{◌++◌};
ghost use Rattle.cdr_write.specs.Write.{Stored};
ghost use Rattle.ask_text.specs.Replies.{space, octets_text, said_text};

use crate::{head, octets};
use profile::Profile;

const SPACE: u8 = b' ';

const LF: u8 = b'\n';

// Writes what stands before the host, and what a body says from there on.
pub(crate) fn write(
    out: &mut [u8],
    at: usize,
    head: &[u8],
    said: Profile,
    body: &[u8],
) -> Option<usize>
    ensures { Stored out.old at (head.now ++ said_text said body.now) result out.new }
{
    let mut port = [0u8; 21];
    let n = head::put_number(&mut port, 0, said.port, SPACE);
    let mut counts = [0u8; 42];
    let m = head::put_two(&mut counts, 0, said.components, said.extra as u64, LF);
    let host = cdr_fields::octets_in(body, said.host);
    let key = cdr_fields::octets_in(body, said.key);
    write_parts(out, at, head, host, &port[..n], key, &counts[..m])
}

// Writes host and key, each behind what stands before it and with a space behind it, and the last characters.
fn write_parts(
    out: &mut [u8],
    at: usize,
    head: &[u8],
    host: &[u8],
    port: &[u8],
    key: &[u8],
    counts: &[u8],
) -> Option<usize>
    ensures { Stored out.old at
        ((head.now ++ octets_text host.now space)
        ++ ((port.now ++ octets_text key.now space) ++ counts.now))
        result out.new }
{
    if !octets::has_room(out.len(), at, head, host) {
        return None;
    }
    let next = at + head.len() + octets::text_length(host);
    if !octets::has_room(out.len(), next, port, key) {
        return None;
    }
    let last = next + port.len() + octets::text_length(key);
    if !cdr::fits(out.len(), last, counts.len()) {
        return None;
    }
    octets::write(out, at, head, host, SPACE);
    octets::write(out, next, port, key, SPACE);
    cdr_write::write_octets(out, last, counts)
}
