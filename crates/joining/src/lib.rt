// Joining of 1.2 fragments: what each line of a recording is answered, by the record of the messages that are open.
#![tactic(auto)]

ghost use Rattle.std.specs.Prelude.{◌≡◌, List, ℕ, ◌≤◌, ◌<◌, length, Ok};
ghost use Rattle.join_places.specs.Places.{places_count, place_size};
ghost use Rattle.join_steps.specs.Steps.{Passes, Opens, Extends, Completes, Frees, length_after};
ghost use Rattle.join_steps.specs.Inner.{Opening, Continues};
ghost use Rattle.joining.specs.Answers.{refused_outcome, Takes, Joins};

use join_answers::{Answer, Refusal};
use join_message::Unassembled;
use join_places::Record;
use join_steps::LineStep;

mod change;

// The answer, and the record after the line.
#[derive(Clone, Copy)]
pub struct Outcome {
    pub answer: Result<Answer, Refusal>,
    pub after: Record,
}

// Answers a line's octets by the record and the octets of its places, 16,384 each, one place behind the other.
pub fn join(octets: &[u8], before: Record, places: &mut [u8], out: &mut [u8]) -> Outcome
    ensures { Joins octets.now before places.old out.old result places.new out.new }
{
    match join_steps::step_of(octets, before, places) {
        Ok(LineStep::Passes) => whole(octets, before, out),
        Ok(LineStep::Opens { place, id }) => first(octets, place, id, before, places),
        Ok(LineStep::Extends(i)) => extend(octets, i, before, places),
        Ok(LineStep::Completes(i)) => complete(octets, i, before, places, out),
        Ok(LineStep::Frees(i)) => cancel(octets, i, before, out),
        Err(why) => refused(before, why),
    }
}

// A refusal leaves the record as it was.
fn refused(before: Record, why: Refusal) -> Outcome
    ensures { result ≡ refused_outcome before why }
{
    Outcome {
        answer: Err(why),
        after: before,
    }
}

// Writes a message as it is.
fn whole(octets: &[u8], before: Record, out: &mut [u8]) -> Outcome
    ensures { (places : List ℕ) → Takes (Ok Passes) octets.now before places out.old result places out.new }
{
    if out.len() < octets.len() {
        return refused(before, Refusal::NoRoom);
    }
    cdr_write::write_octets(out, 0, octets);
    Outcome {
        answer: Ok(Answer::Whole(octets.len())),
        after: before,
    }
}

// Writes a CancelRequest as it is, and frees the place of its id.
fn cancel(request: &[u8], i: usize, before: Record, out: &mut [u8]) -> Outcome
    requires { i < places_count }
    ensures { (places : List ℕ) → Takes (Ok (Frees i)) request.now before places out.old result places out.new }
{
    if out.len() < request.len() {
        return refused(before, Refusal::NoRoom);
    }
    cdr_write::write_octets(out, 0, request);
    Outcome {
        answer: Ok(Answer::Cancelled(request.len())),
        after: change::closed(before, i),
    }
}

// Opens a place for a first fragment.
fn first(octets: &[u8], i: usize, id: u32, before: Record, places: &mut [u8]) -> Outcome
    requires { Opening octets.now places.old i }
    ensures { (out : List ℕ) → Takes (Ok (Opens i id)) octets.now before places.old out result places.new out }
{
    cdr_write::write_octets(places, i * join_places::PLACE_SIZE, octets);
    Outcome {
        answer: Ok(Answer::Held),
        after: change::opened(before, i, id, octets.len()),
    }
}

// Adds a middle fragment's body to its place.
fn extend(octets: &[u8], i: usize, before: Record, places: &mut [u8]) -> Outcome
    requires { Continues octets.now before places.old i × (length_after before i (length octets.now) ≤ place_size) }
    ensures { (out : List ℕ) → Takes (Ok (Extends i)) octets.now before places.old out result places.new out }
{
    let held = before.lengths[i];
    let at = i * join_places::PLACE_SIZE + held;
    cdr_write::write_octets(places, at, &octets[join_steps::ID_END..]);
    Outcome {
        answer: Ok(Answer::Held),
        after: change::lengthened(before, i, held + (octets.len() - join_steps::ID_END)),
    }
}

// Writes the joined message and frees its place.
fn complete(octets: &[u8], i: usize, before: Record, places: &[u8], out: &mut [u8]) -> Outcome
    requires { Continues octets.now before places.now i }
    ensures { Takes (Ok (Completes i)) octets.now before places.now out.old result places.now out.new }
{
    let begin = i * join_places::PLACE_SIZE;
    let held = before.lengths[i];
    let freed = change::closed(before, i);
    let end = begin + held;
    match join_message::write_joined(&places[begin..end], &octets[join_steps::ID_END..], out) {
        Ok(n) => Outcome {
            answer: Ok(Answer::Joined(n)),
            after: freed,
        },
        Err(Unassembled::NoRoom) => refused(before, Refusal::NoRoom),
        // Never: a record that is not refused holds at least a header and a request id of each open message.
        Err(Unassembled::NoHeader) => refused(before, Refusal::NoRoom),
    }
}
