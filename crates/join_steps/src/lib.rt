// What a line does, by the record of the messages that are open: the decision alone, refusal by refusal in 01's order. Nothing is written.
#![tactic(auto)]

ghost use Rattle.std.specs.Prelude.{◌≡◌, length, Ok};
ghost use Rattle.frame.specs.Frames.{frame_of};
ghost use Rattle.join_steps.specs.Steps.{cancelled, continued, starting_of, with_id, message_step, step_of};
ghost use Rattle.join_steps.specs.Inner.{Sound, Continues};

use frame::Header;
use join_answers::Refusal;
use join_places::Record;

mod message;

pub use message::ID_END;

// What a line does that is not refused: the message passes as it is; a place is opened for a request id; lengthened by a fragment; joined and freed by
// its last one; or freed by a cancel.
#[derive(Clone, Copy)]
pub enum LineStep {
    Passes,
    Opens { place: usize, id: u32 },
    Extends(usize),
    Completes(usize),
    Frees(usize),
}

// What a line's octets do, by the record and the octets of its places, where the output has room for what they write.
#[tactic(auto, unfolding(crate::specs::Steps::step_of))]
pub fn step_of(octets: &[u8], before: Record, places: &[u8]) -> Result<LineStep, Refusal>
    ensures { result ≡ step_of octets.now before places.now }
{
    let h = frame::judge(octets)?;
    accepted(octets, h, before, places)
}

// What an accepted message does.
#[tactic(auto, unfolding(crate::specs::Steps::message_step))]
fn accepted(octets: &[u8], h: Header, before: Record, places: &[u8]) -> Result<LineStep, Refusal>
    requires { frame_of octets.now ≡ Ok h }
    ensures { result ≡ message_step before places.now (length octets.now) h }
{
    if join_places::bad_record(before, places.len()) {
        return Err(Refusal::BadRecord);
    }
    match h.id {
        Some(id) => identified(octets, h, id, before, places),
        None => Ok(LineStep::Passes),
    }
}

// What a message does that has a request id.
#[tactic(auto, unfolding(crate::specs::Steps::with_id))]
fn identified(
    octets: &[u8],
    h: Header,
    id: u32,
    before: Record,
    places: &[u8],
) -> Result<LineStep, Refusal>
    requires { Sound octets.now h before places.now }
    ensures { result ≡ with_id before places.now (length octets.now) h id }
{
    let found = join_places::place_of(before, id);
    if h.kind == frame::CANCEL_REQUEST {
        return cancel(found);
    }
    if h.kind == frame::FRAGMENT {
        let i = found.ok_or(Refusal::IdNotOpen)?;
        return fragment(octets, h, i, before, places);
    }
    start(h, id, found, before)
}

// A CancelRequest frees the place of its id, where there is one.
fn cancel(found: Option<usize>) -> Result<LineStep, Refusal>
    ensures { result ≡ cancelled found }
{
    match found {
        Some(i) => Ok(LineStep::Frees(i)),
        None => Ok(LineStep::Passes),
    }
}

// What a message does that starts, whole or as a first fragment.
#[tactic(auto, unfolding(crate::specs::Steps::first_of))]
fn start(h: Header, id: u32, found: Option<usize>, before: Record) -> Result<LineStep, Refusal>
    ensures { result ≡ starting_of before h id found }
{
    if join_places::is_at(found) {
        return Err(Refusal::IdOpen);
    }
    if !h.more {
        return Ok(LineStep::Passes);
    }
    if join_places::PLACES_COUNT as u64 <= join_places::open_count(before) {
        return Err(Refusal::NoPlaceFree);
    }
    // Never refused here: fewer open messages than places leave a place free.
    let place = join_places::lowest_free(before).ok_or(Refusal::NoPlaceFree)?;
    Ok(LineStep::Opens { place, id })
}

// What a fragment of the message does that is open in a place.
#[tactic(auto, unfolding(crate::specs::Steps::continued))]
fn fragment(
    octets: &[u8],
    h: Header,
    i: usize,
    before: Record,
    places: &[u8],
) -> Result<LineStep, Refusal>
    requires { Continues octets.now before places.now i }
    ensures { result ≡ continued before places.now (length octets.now) h i }
{
    let begin = i * join_places::PLACE_SIZE;
    let held = before.lengths[i];
    if message::differs(&places[begin..begin + held], h) {
        return Err(Refusal::FirstDiffers);
    }
    if join_places::PLACE_SIZE < held + (octets.len() - message::ID_END) {
        return Err(Refusal::TooLong);
    }
    if h.more {
        Ok(LineStep::Extends(i))
    } else {
        Ok(LineStep::Completes(i))
    }
}
