// The text of octets, two upper-case digits each, or `-` for none.
ghost use Rattle.std.specs.Prelude.{◌≡◌, ◌++◌, ℕ, ◌+◌, ◌≤◌, length};
ghost use Rattle.decimals.specs.Puts.{Put};
ghost use Rattle.cdr.specs.Limit.{fits};
ghost use Rattle.cdr_write.specs.Write.{Stored};
ghost use Rattle.ask_text.specs.Replies.{octets_text};

use crate::items;

// The characters of the text of octets and of one behind it.
pub(crate) fn text_length(octets: &[u8]) -> usize
    ensures { (behind : ℕ) → result ≡ length (octets_text octets.now behind) }
{
    if octets.is_empty() {
        return 2;
    }
    octets.len() * 2 + 1
}

// Whether what stands before the octets, their text and a character behind it fit from `at` on in so many octets.
pub(crate) fn has_room(len: usize, at: usize, head: &[u8], octets: &[u8]) -> bool
    ensures { (behind : ℕ) → result ≡ fits len at (length (head.now ++ octets_text octets.now behind)) }
{
    cdr::fits(len, at, head.len()) && cdr::fits(len, at + head.len(), text_length(octets))
}

// Puts the text of octets and the character behind it.
fn put(out: &mut [u8], at: usize, octets: &[u8], behind: u8) -> usize
    requires { at + length (octets_text octets.now behind) ≤ length out.old }
    ensures { Put out.old at (octets_text octets.now behind) result out.new }
{
    if octets.is_empty() {
        return items::put_none(out, at, behind);
    }
    hexline::encode(octets, &mut out[at..]);
    let end = at + octets.len() * 2;
    out[end] = behind;
    end + 1
}

// Writes what stands before the octets, their text and the character behind it.
pub(crate) fn write(
    out: &mut [u8],
    at: usize,
    head: &[u8],
    octets: &[u8],
    behind: u8,
) -> Option<usize>
    ensures { Stored out.old at (head.now ++ octets_text octets.now behind) result out.new }
{
    if !has_room(out.len(), at, head, octets) {
        return None;
    }
    cdr_write::write_octets(out, at, head);
    Some(put(out, at + head.len(), octets, behind))
}
