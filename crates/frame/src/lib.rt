// The frame of a GIOP message: its twelve octets of header judged by 01's table, 10 and 12 to 21, and what an accepted header says.
#![tactic(auto)]

ghost use Rattle.std.specs.Prelude.{◌≡◌, ◌≤◌, length};
ghost use Rattle.frame.specs.Header.{header_size, order_flag, more_flag, id_at};
ghost use Rattle.frame.specs.Inner.{IdThere};
ghost use Rattle.frame.specs.Frames.{sized_of, message_of, frame_of, row_number};

use cdr::Order;

mod fields;
mod rules;

// What an accepted header says. The major version is 1; `kind` is the message type.
#[derive(Clone, Copy)]
pub struct Header {
    pub minor: u8,
    pub order: Order,
    pub more: bool,
    pub kind: u8,
    pub size: u32,
    pub id: Option<u32>,
}

// A row of the table that refuses a frame.
#[derive(Clone, Copy)]
pub enum Refusal {
    TooLong,
    Short,
    NotGiop,
    NoSuchVersion,
    NoSuchFlags,
    NoSuchType,
    SizeAbove,
    SizeBelow,
    SizeOfType,
    NoFragments,
    NotInEights,
}

impl Refusal {
    // The paper's number of the row.
    pub fn number(self) -> u32
        ensures { result ≡ row_number self }
    {
        match self {
            Refusal::TooLong => refusals::LINE_TOO_LONG,
            Refusal::Short => refusals::FRAME_SHORT,
            Refusal::NotGiop => refusals::NOT_GIOP,
            Refusal::NoSuchVersion => refusals::NO_SUCH_VERSION,
            Refusal::NoSuchFlags => refusals::NO_SUCH_FLAGS,
            Refusal::NoSuchType => refusals::NO_SUCH_TYPE,
            Refusal::SizeAbove => refusals::SIZE_ABOVE,
            Refusal::SizeBelow => refusals::SIZE_BELOW,
            Refusal::SizeOfType => refusals::SIZE_OF_TYPE,
            Refusal::NoFragments => refusals::NO_FRAGMENTS,
            Refusal::NotInEights => refusals::NOT_IN_EIGHTS,
        }
    }
}

// The types that joining tells from the others.
pub const CANCEL_REQUEST: u8 = 2;

pub const FRAGMENT: u8 = 7;

// Where a header has its fields: magic, major and minor version, flags, type and size.
const MAGIC_OFFSET: usize = 0;

const MAJOR_OFFSET: usize = 4;

pub const MINOR_OFFSET: usize = 5;

pub const FLAGS_OFFSET: usize = 6;

const TYPE_OFFSET: usize = 7;

pub const SIZE_OFFSET: usize = 8;

// The octets of a header.
pub const HEADER_SIZE: usize = 12;

// The most octets of a line's message.
pub const MESSAGE_LIMIT: usize = 4096;

// `GIOP`, as a number of four octets.
const GIOP: u32 = 0x47494F50;

// Judges the octets of a line: their number, then the message.
#[tactic(auto, unfolding(crate::specs::Frames::frame_of))]
pub fn judge(octets: &[u8]) -> Result<Header, Refusal>
    ensures { result ≡ frame_of octets.now }
{
    if MESSAGE_LIMIT < octets.len() {
        return Err(Refusal::TooLong);
    }
    judge_message(octets)
}

// Judges a message of any length: magic, version, flags and type, then what depends on the size.
#[tactic(auto, unfolding(crate::specs::Frames::message_of))]
pub fn judge_message(octets: &[u8]) -> Result<Header, Refusal>
    ensures { result ≡ message_of octets.now }
{
    if octets.len() < HEADER_SIZE {
        return Err(Refusal::Short);
    }
    if fields::word(octets, MAGIC_OFFSET, Order::Big) != GIOP {
        return Err(Refusal::NotGiop);
    }
    if !rules::version_exists(octets[MAJOR_OFFSET], octets[MINOR_OFFSET]) {
        return Err(Refusal::NoSuchVersion);
    }
    if !version::flags_allowed(octets[MINOR_OFFSET], octets[FLAGS_OFFSET]) {
        return Err(Refusal::NoSuchFlags);
    }
    if !version::type_exists(octets[MINOR_OFFSET], octets[TYPE_OFFSET]) {
        return Err(Refusal::NoSuchType);
    }
    sized(octets)
}

// Judges the size and the fragmentation of a message that has its header.
#[tactic(auto, unfolding(crate::specs::Frames::sized_of))]
fn sized(octets: &[u8]) -> Result<Header, Refusal>
    requires { header_size ≤ length octets.now }
    ensures { result ≡ sized_of octets.now }
{
    let minor = octets[MINOR_OFFSET];
    let order = order_flag(octets[FLAGS_OFFSET]);
    let more = more_flag(octets[FLAGS_OFFSET]);
    let kind = octets[TYPE_OFFSET];
    let size = fields::word(octets, SIZE_OFFSET, order);
    let body = octets.len() - HEADER_SIZE;
    if body < size as usize {
        return Err(Refusal::SizeAbove);
    }
    if (size as usize) < body {
        return Err(Refusal::SizeBelow);
    }
    let size_fits = rules::size_allowed(minor, kind, size);
    let fragment_fits = rules::fragment_allowed(minor, kind, more);
    let eights_fit = rules::eights_allowed(more, size);
    if !size_fits {
        return Err(Refusal::SizeOfType);
    }
    if !fragment_fits {
        return Err(Refusal::NoFragments);
    }
    if !eights_fit {
        return Err(Refusal::NotInEights);
    }
    let id = request_id(octets);
    Ok(Header {
        minor,
        order,
        more,
        kind,
        size,
        id,
    })
}

// The request id of a message that has the octets of one, if it has any.
fn request_id(octets: &[u8]) -> Option<u32>
    requires { IdThere octets.now }
    ensures { result ≡ id_at octets.now }
{
    if rules::has_request_id(octets[MINOR_OFFSET], octets[TYPE_OFFSET]) {
        Some(fields::word(octets, HEADER_SIZE, order_flag(octets[FLAGS_OFFSET])))
    } else {
        None
    }
}

// The byte order that the flags name.
pub fn order_flag(flags: u8) -> Order
    ensures { result ≡ order_flag flags }
{
    if flags % 2 == 1 {
        Order::Little
    } else {
        Order::Big
    }
}

// Whether more fragments follow.
pub fn more_flag(flags: u8) -> bool
    ensures { result ≡ more_flag flags }
{
    flags / 2 % 2 == 1
}
