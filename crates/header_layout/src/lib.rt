// The parts of a Request or Reply header in the order of its octets, by message type and version.
#![tactic(auto)]

ghost use Rattle.std.specs.Prelude.{◌≡◌};
ghost use Rattle.header_layout.specs.Layout.{layout_of, part_number};

// The message types that have such a header.
pub const REQUEST: u8 = 0;

pub const REPLY: u8 = 1;

// A part of a header. The reserved octets are none in 1.0.
#[derive(Clone, Copy)]
pub enum HeaderPart {
    Contexts,
    Id,
    Response,
    Reserved,
    Key,
    Target,
    Operation,
    Principal,
    Status,
}

// The parts of a request before 1.2, and from 1.2 on.
const EARLY_REQUEST: [HeaderPart; 7] = [
    HeaderPart::Contexts,
    HeaderPart::Id,
    HeaderPart::Response,
    HeaderPart::Reserved,
    HeaderPart::Key,
    HeaderPart::Operation,
    HeaderPart::Principal,
];

const LATE_REQUEST: [HeaderPart; 6] = [
    HeaderPart::Id,
    HeaderPart::Response,
    HeaderPart::Reserved,
    HeaderPart::Target,
    HeaderPart::Operation,
    HeaderPart::Contexts,
];

// The parts of a reply before 1.2, and from 1.2 on.
const EARLY_REPLY: [HeaderPart; 3] = [HeaderPart::Contexts, HeaderPart::Id, HeaderPart::Status];

const LATE_REPLY: [HeaderPart; 3] = [HeaderPart::Id, HeaderPart::Status, HeaderPart::Contexts];

// The part of a number in the header of a message, the first one 0.
pub fn part_at(kind: u8, minor: u8, number: usize) -> Option<HeaderPart>
    ensures { result ≡ part_number (layout_of kind minor) number }
{
    parts_of(kind, minor).get(number).copied()
}

// The parts of a message's header.
fn parts_of(kind: u8, minor: u8) -> &'static [HeaderPart]
    ensures { result.now ≡ layout_of kind minor }
{
    match (kind == REQUEST, version::body_starts_with_id(minor)) {
        (true, true) => &LATE_REQUEST,
        (true, false) => &EARLY_REQUEST,
        (false, true) => &LATE_REPLY,
        (false, false) => &EARLY_REPLY,
    }
}
