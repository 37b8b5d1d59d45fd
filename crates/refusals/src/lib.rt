// The numbers that papers 01 and 02 give to refusals, by name.
#![tactic(auto)]

// A line is over 8,192 characters, or a line's message over 4,096 octets.
pub const LINE_TOO_LONG: u32 = 10;

// A line has an odd count of characters, or one that is no digit.
pub const NOT_DIGITS: u32 = 11;

// A message has fewer octets than a header.
pub const FRAME_SHORT: u32 = 12;

// A message does not begin with `GIOP`.
pub const NOT_GIOP: u32 = 13;

// A message has a version that is not read.
pub const NO_SUCH_VERSION: u32 = 14;

// A message has flags set that its version lacks.
pub const NO_SUCH_FLAGS: u32 = 15;

// A message has a type that its version lacks.
pub const NO_SUCH_TYPE: u32 = 16;

// A message says a size above its octets.
pub const SIZE_ABOVE: u32 = 17;

// A message says a size below its octets.
pub const SIZE_BELOW: u32 = 18;

// A message has a size that its type cannot have.
pub const SIZE_OF_TYPE: u32 = 19;

// A message is a fragment, or says that one follows, where there are none.
pub const NO_FRAGMENTS: u32 = 20;

// A message says that a fragment follows, and does not end at a multiple of 8.
pub const NOT_IN_EIGHTS: u32 = 21;

// A message's request id is that of an open message.
pub const ID_OPEN: u32 = 22;

// A first fragment comes when as many messages are open as there are places.
pub const NO_PLACE_FREE: u32 = 23;

// A fragment's request id is not that of an open message.
pub const ID_NOT_OPEN: u32 = 24;

// A fragment has another minor version or byte order than the first one.
pub const FIRST_DIFFERS: u32 = 25;

// A joined message would pass 16,384 octets.
pub const JOINED_TOO_LONG: u32 = 26;

// An output is shorter than what is to be written.
pub const NO_ROOM: u32 = 27;

// A lent record has one id open twice, a place that is too short, or an open length out of its range.
pub const BAD_RECORD: u32 = 28;

// The octets of a TypeCode or an encapsulation end.
pub const TYPE_ENDS: u32 = 30;

// A kind is not listed.
pub const NO_SUCH_KIND: u32 = 31;

// A type's text has length 0, no last zero octet, or an earlier one.
pub const BAD_TYPE_TEXT: u32 = 32;

// An encapsulation's length is 0 or beyond its surroundings, its order octet above 1, or its parameters don't end with it.
pub const BAD_ENCAPSULATION: u32 = 33;

// A count or a length is 0.
pub const NO_COUNT: u32 = 34;

// A discriminant has another kind, a label is out of its kind or there twice, or a default is out of range.
pub const BAD_UNION: u32 = 35;

// An indirection's target is no kind met, or one still being read that is neither struct nor union.
pub const BAD_TARGET: u32 = 36;

// A TypeCode has a 65th kind.
pub const TOO_MANY_KINDS: u32 = 37;

// Types are nested more than 16 deep.
pub const TOO_DEEP: u32 = 38;

// A kind returns to itself.
pub const LOOP: u32 = 39;

// Null, void or an exception stands below the top.
pub const BELOW_TOP: u32 = 40;

// Octets are over 16,384.
pub const TOO_LONG: u32 = 42;

// An item is asked for by a number that is not below their count.
pub const NO_SUCH_ITEM: u32 = 49;

// A value's octets end.
pub const VALUE_ENDS: u32 = 50;

// A boolean is above 1.
pub const BAD_BOOLEAN: u32 = 51;

// An enum is not below the number of its names.
pub const NO_SUCH_NAME: u32 = 52;

// A value's text has length 0, no last zero octet, or an earlier one.
pub const BAD_VALUE_TEXT: u32 = 53;

// A text or a sequence is over its bound.
pub const OVER_BOUND: u32 = 54;

// A visit has 64 open above it.
pub const TOO_MANY_OPEN: u32 = 55;

// There is no room for a finished item.
pub const NO_ITEM_ROOM: u32 = 56;

// The output has no room for a value's octets.
pub const NO_OUTPUT_ROOM: u32 = 57;

// A profile body's octets end.
pub const PROFILE_ENDS: u32 = 60;

// A profile body's order octet is above 1.
pub const NO_SUCH_ORDER: u32 = 61;

// A profile body has a version that is not read.
pub const NO_SUCH_PROFILE_VERSION: u32 = 62;

// A profile's host has length 0, no last zero octet, or an earlier one.
pub const BAD_HOST: u32 = 63;

// A 1.0 profile body has octets after the key.
pub const AFTER_KEY: u32 = 64;

// A component, a context or a profile is asked for by a number that is not below their count.
pub const NO_SUCH_COMPONENT: u32 = 69;

// The octets of a message's header end, or the message ends in the gap before its body.
pub const HEADER_ENDS: u32 = 70;

// A response boolean or flags have a value that the version lacks.
pub const NO_SUCH_RESPONSE: u32 = 71;

// A target's kind is above 2.
pub const NO_SUCH_TARGET: u32 = 72;

// An operation or a reference's type id has length 0, no last zero octet, or an earlier one.
pub const BAD_OPERATION: u32 = 73;

// A reply has a status that the version lacks.
pub const NO_SUCH_STATUS: u32 = 74;

// A message is neither a request nor a reply, or more fragments of it follow.
pub const NO_HEADER: u32 = 75;

// An output is shorter than the octets before a message's body.
pub const NO_HEAD_ROOM: u32 = 76;
