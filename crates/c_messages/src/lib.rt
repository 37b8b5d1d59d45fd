// The C interface's functions about lines and frame headers: each answers 01's number, and a refusal leaves all that was lent as it was.
#![tactic(auto)]

ghost use Rattle.std.specs.Prelude.{◌≡◌};
ghost use Rattle.frame.specs.Frames.{header_numbers};
ghost use Rattle.c_messages.specs.Answers.{DecodesC, EncodesC, JudgesC};

use frame::Header;

// A line's characters to octets in `out`, and their number in `count`; 10, 11, or 27 where `out` is too short.
pub fn haulspar_decode(line: &[u8], out: &mut [u8], count: &mut u64) -> u32
    ensures { DecodesC line.now out.old count.old result out.new count.new }
{
    let answer = hexline::decode(line, out);
    if let Ok(octets) = answer {
        *count = octets as u64;
    }
    hexline::decoded_number(answer)
}

// Octets to upper-case digits in `out`, and their number in `count`; 27 where `out` is too short.
pub fn haulspar_encode(octets: &[u8], out: &mut [u8], count: &mut u64) -> u32
    ensures { EncodesC octets.now out.old count.old result out.new count.new }
{
    let answer = hexline::encode(octets, out);
    if let Some(digits) = answer {
        *count = digits as u64;
    }
    hexline::encoded_number(answer)
}

// A message's octets judged; `header` gets minor, order, more, type, size, whether there is a request id, request id.
pub fn haulspar_frame(octets: &[u8], header: &mut [u64; 7]) -> u32
    ensures { JudgesC octets.now header.old result header.new }
{
    match frame::judge(octets) {
        Ok(h) => {
            *header = numbers(h);
            0
        }
        Err(row) => row.number(),
    }
}

// A header as numbers.
fn numbers(h: Header) -> [u64; 7]
    ensures { result ≡ header_numbers h }
{
    [
        h.minor as u64,
        h.order.octet() as u64,
        h.more as u64,
        h.kind as u64,
        h.size as u64,
        h.id.is_some() as u64,
        h.id.unwrap_or(0) as u64,
    ]
}
