// The numbers that paper 01 gives to the kinds of a TypeCode and of an item, by name.
#![tactic(auto)]

// Nothing, at the top alone.
pub const NULL: u64 = 0;

// Nothing, as a result's type, at the top alone.
pub const VOID: u64 = 1;

// A signed number of 2 octets.
pub const SHORT: u64 = 2;

// A signed number of 4 octets.
pub const LONG: u64 = 3;

// An unsigned number of 2 octets.
pub const USHORT: u64 = 4;

// An unsigned number of 4 octets.
pub const ULONG: u64 = 5;

// A float of 4 octets.
pub const FLOAT: u64 = 6;

// A float of 8 octets.
pub const DOUBLE: u64 = 7;

// An octet that is 0 or 1.
pub const BOOLEAN: u64 = 8;

// A character of one octet.
pub const CHAR: u64 = 9;

// An octet.
pub const OCTET: u64 = 10;

// A reference to an object.
pub const OBJREF: u64 = 14;

// Members, one after the other.
pub const STRUCT: u64 = 15;

// A discriminant, and the member that it chooses.
pub const UNION: u64 = 16;

// One of so many names.
pub const ENUM: u64 = 17;

// A text, and an item of a text.
pub const STRING: u64 = 18;

// A count and so many elements, and an item of a count.
pub const SEQUENCE: u64 = 19;

// Elements of a number that the type says.
pub const ARRAY: u64 = 20;

// Another name of a type.
pub const ALIAS: u64 = 21;

// An id and members, at the top alone.
pub const EXCEPTION: u64 = 22;

// A signed number of 8 octets.
pub const LONG_LONG: u64 = 23;

// An unsigned number of 8 octets.
pub const UNSIGNED_LONG_LONG: u64 = 24;

// A run of octets, counted in a reference's profile: of an item alone.
pub const RUN: u64 = 256;

// An indirection to a kind that was met.
pub const INDIRECTION: u64 = 4294967295;

// The most kinds that a TypeCode may have.
pub const KINDS_LIMIT: usize = 64;
