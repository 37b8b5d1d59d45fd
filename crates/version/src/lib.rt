// The versions of GIOP and IIOP that are read, and what each minor version implies.
#![tactic(auto)]

ghost use Rattle.std.specs.Prelude.{◌≡◌};
ghost use Rattle.version.specs.Versions.{major_exists, minor_exists, flags_allowed, type_exists, body_starts_with_id, reads_fragments};
ghost use Rattle.version.specs.Versions.{has_components, reserved_octets, response_allowed, status_exists, body_in_eights};

// The only major version.
const MAJOR: u8 = 1;

// The last minor version.
const LAST_MINOR: u8 = 2;

// The first minor version.
const FIRST_MINOR: u8 = 0;

// The largest flags octet of the first minor version, and of the later ones.
const FIRST_FLAGS: u8 = 1;

const LATER_FLAGS: u8 = 3;

// The last message type of the first minor version, and of the later ones.
const FIRST_TYPE: u8 = 6;

const LATER_TYPE: u8 = 7;

// The first minor version whose bodies start with the request id.
const ID_FROM: u8 = 2;

// The minor version whose fragments are left out.
const NOT_JOINED: u8 = 1;

// The first minor version whose profile bodies have components.
const COMPONENTS_FROM: u8 = 1;

// The reserved octets of a request header: none in the first minor version, and those of the later ones.
const FIRST_RESERVED: usize = 0;

const LATER_RESERVED: usize = 3;

// The last response boolean, and the one number above it that is among the flags of the minor versions whose bodies start with the request id.
const LAST_BOOLEAN: u64 = 1;

const LAST_RESPONSE: u64 = 3;

// The last status of a reply before bodies start with the request id, and from then on.
const EARLY_STATUS: u64 = 3;

const LATE_STATUS: u64 = 5;

// The first minor version in which what follows a request's or a reply's header begins at a multiple of 8.
const EIGHTS_FROM: u8 = 2;

// Whether there is such a major version.
#[tactic(auto, unfolding(crate::specs::Versions::major_exists))]
pub fn major_exists(major: u8) -> bool
    ensures { result ≡ major_exists major }
{
    major == MAJOR
}

// Whether there is such a minor version.
#[tactic(auto, unfolding(crate::specs::Versions::minor_exists))]
pub fn minor_exists(minor: u8) -> bool
    ensures { result ≡ minor_exists minor }
{
    minor <= LAST_MINOR
}

// Whether the minor version allows these flags.
#[tactic(auto, unfolding(crate::specs::Versions::flags_allowed))]
pub fn flags_allowed(minor: u8, flags: u8) -> bool
    ensures { result ≡ flags_allowed minor flags }
{
    if minor == FIRST_MINOR {
        flags <= FIRST_FLAGS
    } else {
        flags <= LATER_FLAGS
    }
}

// Whether the minor version has this message type.
#[tactic(auto, unfolding(crate::specs::Versions::type_exists))]
pub fn type_exists(minor: u8, kind: u8) -> bool
    ensures { result ≡ type_exists minor kind }
{
    if minor == FIRST_MINOR {
        kind <= FIRST_TYPE
    } else {
        kind <= LATER_TYPE
    }
}

// Whether the first four body octets are the request id in this minor version.
#[tactic(auto, unfolding(crate::specs::Versions::body_starts_with_id))]
pub fn body_starts_with_id(minor: u8) -> bool
    ensures { result ≡ body_starts_with_id minor }
{
    ID_FROM <= minor
}

// Whether the minor version's fragments are read.
#[tactic(auto, unfolding(crate::specs::Versions::reads_fragments))]
pub fn reads_fragments(minor: u8) -> bool
    ensures { result ≡ reads_fragments minor }
{
    minor != NOT_JOINED
}

// Whether a profile body of the minor version has a list of components.
#[tactic(auto, unfolding(crate::specs::Versions::has_components))]
pub fn has_components(minor: u8) -> bool
    ensures { result ≡ has_components minor }
{
    COMPONENTS_FROM <= minor
}

// How many reserved octets a request header of the minor version has.
#[tactic(auto, unfolding(crate::specs::Versions::reserved_octets))]
pub fn reserved_octets(minor: u8) -> usize
    ensures { result ≡ reserved_octets minor }
{
    if minor == FIRST_MINOR {
        FIRST_RESERVED
    } else {
        LATER_RESERVED
    }
}

// Whether a request header of the minor version may have this response octet: a boolean, or flags.
#[tactic(auto, unfolding(crate::specs::Versions::response_allowed, crate::specs::Versions::body_starts_with_id))]
pub fn response_allowed(minor: u8, response: u64) -> bool
    ensures { result ≡ response_allowed minor response }
{
    response <= LAST_BOOLEAN || ID_FROM <= minor && response == LAST_RESPONSE
}

// Whether a reply of the minor version may have this status.
#[tactic(auto, unfolding(crate::specs::Versions::status_exists, crate::specs::Versions::body_starts_with_id))]
pub fn status_exists(minor: u8, status: u64) -> bool
    ensures { result ≡ status_exists minor status }
{
    if ID_FROM <= minor {
        status <= LATE_STATUS
    } else {
        status <= EARLY_STATUS
    }
}

// Whether what follows a request's or a reply's header of the minor version begins at a multiple of 8.
#[tactic(auto, unfolding(crate::specs::Versions::body_in_eights))]
pub fn body_in_eights(minor: u8) -> bool
    ensures { result ≡ body_in_eights minor }
{
    EIGHTS_FROM <= minor
}
