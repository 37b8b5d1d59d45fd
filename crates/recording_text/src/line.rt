// The answer to one line, where there is room for its text.
ghost use Rattle.std.specs.Prelude.{◌≡◌, ◌+◌, ◌≤◌, length, nat_le};
ghost use Rattle.joining.specs.Answers.{step_within};
ghost use Rattle.recording_text.specs.Listing.{octets_most, message_most, entry_of, joined_entry, longest};
ghost use Rattle.recording_text.specs.Inner.{Room, Lists};

use crate::{LONGEST, text};
use join_places::Record;
use joining::Outcome;

// The most octets of a line.
const OCTETS: usize = frame::MESSAGE_LIMIT;

// The most octets of a message.
const MESSAGE: usize = join_places::PLACE_SIZE;

// The record after a line, and where the line's text ends.
#[derive(Clone, Copy)]
pub(crate) struct Listed {
    pub(crate) after: Record,
    pub(crate) end: usize,
}

// Memory for a line's octets.
pub(crate) fn octets_memory() -> [u8; OCTETS]
    ensures { octets_most ≡ length result }
{
    [0; OCTETS]
}

// Memory for a message.
pub(crate) fn message_memory() -> [u8; MESSAGE]
    ensures { message_most ≡ length result }
{
    [0; MESSAGE]
}

// Whether the longest answer has room from `at` on in an output of this size.
pub(crate) fn has_room(size: usize, at: usize) -> bool
    ensures { result ≡ nat_le (at + longest) size }
{
    LONGEST <= size && at <= size - LONGEST
}

// Answers a line whose text has room.
pub(crate) fn list_line(
    characters: &[u8],
    number: u64,
    before: Record,
    places: &mut [u8],
    out: &mut [u8],
    at: usize,
    octets: &mut [u8],
    message: &mut [u8],
) -> Listed
    requires { Room out.old at octets.old message.old }
    ensures { Lists (entry_of characters.now before places.old)
        number out.old at result places.new out.new }
{
    let decoded = hexline::decode(characters, octets);
    match decoded {
        Ok(n) => list_octets(&octets[..n], number, before, places, out, at, message),
        Err(_) => Listed {
            after: before,
            end: text::put_unshown(out, at, number, hexline::decoded_number(decoded)),
        },
    }
}

// Answers a line's octets.
fn list_octets(
    octets: &[u8],
    number: u64,
    before: Record,
    places: &mut [u8],
    out: &mut [u8],
    at: usize,
    message: &mut [u8],
) -> Listed
    requires { (at + longest ≤ length out.old) × (length message.old ≡ message_most) }
    ensures { Lists (joined_entry (step_within octets.now before places.old message_most)
        octets.now before places.old)
        number out.old at result places.new out.new }
{
    let Outcome { answer, after } = joining::join(octets, before, places, message);
    let code = join_answers::answer_number(answer);
    let end = match join_answers::output_in(answer) {
        Some(n) => text::put_shown(out, at, number, code, &message[..n]),
        None => text::put_unshown(out, at, number, code),
    };
    Listed { after, end }
}
