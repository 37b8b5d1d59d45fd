// The record of a recording: places for open messages.
#![tactic(auto)]

ghost use Rattle.std.specs.Prelude.{◌≡◌, ◌<◌};
ghost use Rattle.join_places.specs.Places.{places_count, is_at, is_open_with, place_of_id, lowest_free, open_count, fresh_record};
ghost use Rattle.join_places.specs.Places.{both_open, open_before, id_open_twice, length_wrong, some_length_wrong, bad_record};

// How many places there are.
pub const PLACES_COUNT: usize = 4;

// Of each place its open message's request id and length, and whether there is one.
#[repr(C)]
#[derive(Clone, Copy)]
pub struct Record {
    pub ids: [u32; PLACES_COUNT],
    pub lengths: [usize; PLACES_COUNT],
    pub opened: [bool; PLACES_COUNT],
}

impl Record {
    // The record of a recording that begins: nothing is open.
    pub fn fresh() -> Record
        ensures { result ≡ fresh_record }
    {
        Record {
            ids: [0; PLACES_COUNT],
            lengths: [0; PLACES_COUNT],
            opened: [false; PLACES_COUNT],
        }
    }
}

// The octets of a place.
pub const PLACE_SIZE: usize = 16384;

// The octets of all places.
pub const PLACES_SIZE: usize = PLACES_COUNT * PLACE_SIZE;

// The least octets of an open message: its header and its request id.
const LEAST: usize = 16;

// Whether a place was found.
pub fn is_at(found: Option<usize>) -> bool
    ensures { result ≡ is_at found }
{
    found.is_some()
}

// Whether a place has the open message of a request id.
#[tactic(auto, unfolding(crate::specs::Places::is_open_with))]
fn is_open_with(r: Record, i: usize, id: u32) -> bool
    requires { i < places_count }
    ensures { result ≡ is_open_with r id i }
{
    r.opened[i] && r.ids[i] == id
}

// The place of the open message of a request id.
#[tactic(auto, unfolding(crate::specs::Places::place_of_id, crate::specs::Places::first_with))]
pub fn place_of(r: Record, id: u32) -> Option<usize>
    ensures { result ≡ place_of_id r id }
{
    for i in 0..PLACES_COUNT {
        if is_open_with(r, i, id) {
            return Some(i);
        }
    }
    None
}

// The lowest place that has no open message, if one has none.
#[tactic(auto, unfolding(crate::specs::Places::lowest_free, crate::specs::Places::first_with))]
pub fn lowest_free(r: Record) -> Option<usize>
    ensures { result ≡ lowest_free r }
{
    for (i, open) in r.opened.iter().enumerate() {
        if !*open {
            return Some(i);
        }
    }
    None
}

// The messages open.
#[tactic(auto, unfolding(crate::specs::Places::open_count, crate::specs::Places::sum_over))]
pub fn open_count(r: Record) -> u64
    ensures { result ≡ open_count r }
{
    let mut count = 0;
    for open in r.opened.iter() {
        count += *open as u64;
    }
    count
}

// Whether two places have open messages of the same id.
#[tactic(auto, unfolding(crate::specs::Places::both_open))]
fn both_open(r: Record, i: usize, j: usize) -> bool
    requires { (i < places_count) × (j < places_count) }
    ensures { result ≡ both_open r i j }
{
    r.opened[i] && r.opened[j] && r.ids[i] == r.ids[j]
}

// Whether an earlier place has an open message of the same id.
#[tactic(auto, unfolding(crate::specs::Places::open_before, crate::specs::Places::some_with))]
fn open_before(r: Record, i: usize) -> bool
    requires { i < places_count }
    ensures { result ≡ open_before r i }
{
    for j in 0..i {
        if both_open(r, i, j) {
            return true;
        }
    }
    false
}

// Whether one id is open twice.
#[tactic(auto, unfolding(crate::specs::Places::id_open_twice, crate::specs::Places::some_with))]
fn id_open_twice(r: Record) -> bool
    ensures { result ≡ id_open_twice r }
{
    for i in 0..PLACES_COUNT {
        if open_before(r, i) {
            return true;
        }
    }
    false
}

// Whether the length of a place's open message is out of its range.
#[tactic(auto, unfolding(crate::specs::Places::length_wrong))]
fn length_wrong(r: Record, i: usize) -> bool
    requires { i < places_count }
    ensures { result ≡ length_wrong r i }
{
    r.opened[i] && (r.lengths[i] < LEAST || PLACE_SIZE < r.lengths[i])
}

// Whether one of the open lengths is out of its range.
#[tactic(auto, unfolding(crate::specs::Places::some_length_wrong, crate::specs::Places::some_with))]
fn some_length_wrong(r: Record) -> bool
    ensures { result ≡ some_length_wrong r }
{
    for i in 0..PLACES_COUNT {
        if length_wrong(r, i) {
            return true;
        }
    }
    false
}

// Whether a record with so many octets of places is refused.
#[tactic(auto, unfolding(crate::specs::Places::bad_record))]
pub fn bad_record(r: Record, lent: usize) -> bool
    ensures { result ≡ bad_record r lent }
{
    id_open_twice(r) || lent < PLACES_SIZE || some_length_wrong(r)
}
