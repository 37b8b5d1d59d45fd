// The text of the answers, each with its LF, written into lent memory where it fits.
#![tactic(auto)]

ghost use Rattle.std.specs.Prelude.{◌++◌};
ghost use Rattle.cdr_write.specs.Write.{Stored};
ghost use Rattle.ask_text.specs.Items.{items_of};
ghost use Rattle.ask_text.specs.Replies.{octets_text, reply_text};

use cdr_fields::Extent;
use profile::Profile;

mod head;
mod items;
mod octets;
mod profiles;

// The characters of the longest text but for its items or octets: three numbers of at most 20 digits, `ok` and four spaces.
const HEAD: usize = 66;

const LF: u8 = b'\n';

// What a question is answered.
#[derive(Clone, Copy)]
pub enum Reply {
    // A type: octets used and kinds written.
    Typed {
        used: usize,
        kinds: usize,
    },
    // A value: octets used, visits, and the number of its items.
    Read {
        used: usize,
        visits: u64,
        count: usize,
    },
    // A refusal's number.
    Refused(u32),
    // A refusal's number, and the visits begun.
    Unread {
        number: u32,
        visits: u64,
    },
    // An item's 64 bits: of a signed number in two's complement, of a float those of its format.
    Signed(u64),
    Unsigned(u64),
    Single(u64),
    Double(u64),
    // A rewritten value: the number of its octets.
    Rewritten(usize),
    // A profile: what its body says, and the number of the body's octets.
    Profiled(Profile, usize),
    // A component: its tag, its octets, and the number of the body's octets.
    Component(u64, Extent, usize),
    // The line is no question.
    NoQuestion,
}

// Writes what stands before octets, their text and the character behind it from `at` on, or nothing where it does not fit.
pub fn write_octets(
    out: &mut [u8],
    at: usize,
    head: &[u8],
    octets: &[u8],
    behind: u8,
) -> Option<usize>
    ensures { Stored out.old at (head.now ++ octets_text octets.now behind) result out.new }
{
    octets::write(out, at, head, octets, behind)
}

// Writes the text of an answer from `at` on, with the items of a value, three numbers each, or the octets of a rewritten one or of a profile
// body; or nothing where it does not fit.
pub fn write_reply(
    out: &mut [u8],
    at: usize,
    reply: Reply,
    items: &[u64],
    octets: &[u8],
) -> Option<usize>
    ensures { Stored out.old at (reply_text reply (items_of items.now) octets.now) result out.new }
{
    let mut head = [0u8; HEAD];
    let end = head::put(&mut head, reply);
    match reply {
        Reply::Read { .. } => items::write(out, at, &head[..end], items),
        Reply::Rewritten(_) => octets::write(out, at, &head[..end], octets, LF),
        Reply::Profiled(said, _) => profiles::write(out, at, &head[..end], said, octets),
        Reply::Component(_, part, _) => {
            octets::write(
                out,
                at,
                &head[..end],
                cdr_fields::octets_in(octets, part),
                LF,
            )
        }
        Reply::Typed { .. }
        | Reply::Refused(_)
        | Reply::Unread { .. }
        | Reply::Signed(_)
        | Reply::Unsigned(_)
        | Reply::Single(_)
        | Reply::Double(_)
        | Reply::NoQuestion => cdr_write::write_octets(out, at, &head[..end]),
    }
}
