// The changes of a record: a place opened, its message lengthened, and freed.
ghost use Rattle.std.specs.Prelude.{◌≡◌, ◌<◌};
ghost use Rattle.join_places.specs.Places.{places_count, opened, lengthened, closed};

use join_places::Record;

// The record with a place opened.
pub(crate) fn opened(r: Record, i: usize, id: u32, length: usize) -> Record
    requires { i < places_count }
    ensures { result ≡ opened r i id «length» }
{
    let mut after = r;
    after.ids[i] = id;
    after.lengths[i] = length;
    after.opened[i] = true;
    after
}

// The record with a place's message lengthened.
pub(crate) fn lengthened(r: Record, i: usize, length: usize) -> Record
    requires { i < places_count }
    ensures { result ≡ lengthened r i «length» }
{
    let mut after = r;
    after.lengths[i] = length;
    after
}

// The record with a place freed.
pub(crate) fn closed(r: Record, i: usize) -> Record
    requires { i < places_count }
    ensures { result ≡ closed r i }
{
    let mut after = r;
    after.opened[i] = false;
    after
}
