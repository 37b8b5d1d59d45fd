// The C interface's function that joins: it answers 01's number, and a refusal leaves all that was lent as it was.
#![tactic(auto)]

ghost use Rattle.c_joining.specs.Joining.{JoinsC};

use join_places::Record;
use joining::Outcome;

// A line's octets joined by the lent record and the octets of its places: 0 to 3, 10, or 12 to 28. Where a message is written,
// `count` gets the number of its octets. The record is C's `struct { uint32_t ids[4]; size_t lengths[4]; bool opened[4]; }`, each
// of its bools 0 or 1.
pub fn haulspar_join(
    octets: &[u8],
    record: &mut Record,
    places: &mut [u8],
    out: &mut [u8],
    count: &mut u64,
) -> u32
    ensures { JoinsC octets.now «record».old places.old out.old count.old
        (record { number = result; after = «record».new })
        places.new out.new count.new }
{
    let r = joined(octets, *record, places, out, count);
    *record = r.after;
    r.number
}

// The number of an answer, and the record after the line.
#[derive(Clone, Copy)]
struct Numbered {
    number: u32,
    after: Record,
}

// A line's octets joined, with the record by value.
fn joined(
    octets: &[u8],
    before: Record,
    places: &mut [u8],
    out: &mut [u8],
    count: &mut u64,
) -> Numbered
    ensures { JoinsC octets.now before places.old out.old count.old
        result places.new out.new count.new }
{
    let Outcome { answer, after } = joining::join(octets, before, places, out);
    if let Some(n) = join_answers::output_in(answer) {
        *count = n as u64;
    }
    Numbered {
        number: join_answers::answer_number(answer),
        after,
    }
}
