// The text of a value's items, `KIND:PLACE:CONTENT` joined by commas.
ghost use Rattle.std.specs.Prelude.{◌≡◌, [], ◌∷◌, ◌++◌, ◌+◌, ◌<◌, ◌≤◌, leb, length};
ghost use Rattle.decimals.specs.Puts.{Put};
ghost use Rattle.cdr_write.specs.Write.{Stored};
ghost use Rattle.ask_text.specs.Items.{hyphen, item_from, item_text, items_of, joined, items_text};
ghost use Rattle.ask_text.specs.Inner.{behind_at};

use crate::head::put_number;

const COLON: u8 = b':';

const COMMA: u8 = b',';

const DASH: u8 = b'-';

const LF: u8 = b'\n';

// The character behind an item: a comma, or an LF behind the last.
fn behind(next: usize, count: usize) -> u8
    ensures { result ≡ behind_at next count }
{
    if next < count { COMMA } else { LF }
}

// The characters of an item, and of one behind it.
fn item_length(items: &[u64], j: usize) -> usize
    requires { j + 2 < length items.now }
    ensures { result ≡ length (item_text (item_from items.now j)) + 1 }
{
    let kind = decimals::count_digits(items[j]);
    let place = decimals::count_digits(items[j + 1]);
    let content = decimals::count_digits(items[j + 2]);
    kind + place + content + 3
}

// Whether the items' characters are at most so many.
fn fit_joined(items: &[u64], room: usize) -> bool
    ensures { result ≡ leb (length (joined (items_of items.now))) room }
{
    let mut left = room;
    for k in 0..items.len() / 3 {
        let n = item_length(items, k * 3);
        if left < n {
            return false;
        }
        left -= n;
    }
    true
}

// Puts an item and the character behind it.
fn put_item(out: &mut [u8], at: usize, items: &[u64], j: usize, behind: u8) -> usize
    requires { (j + 2 < length items.now) × (at + length (item_text (item_from items.now j)) + 1 ≤ length out.old) }
    ensures { Put out.old at (item_text (item_from items.now j) ++ (behind ∷ [])) result out.new }
{
    let placed = put_number(out, at, items[j], COLON);
    let filled = put_number(out, placed, items[j + 1], COLON);
    put_number(out, filled, items[j + 2], behind)
}

// Puts items, each with the character behind it.
fn put_joined(out: &mut [u8], at: usize, items: &[u64]) -> usize
    requires { at + length (joined (items_of items.now)) ≤ length out.old }
    ensures { Put out.old at (joined (items_of items.now)) result out.new }
{
    let count = items.len() / 3;
    let mut end = at;
    for k in 0..count {
        end = put_item(out, end, items, k * 3, behind(k + 1, count));
    }
    end
}

// Whether the text of items has at most so many characters.
fn fit(items: &[u64], room: usize) -> bool
    ensures { result ≡ leb (length (items_text (items_of items.now))) room }
{
    if items.len() < 3 {
        return 2 <= room;
    }
    fit_joined(items, room)
}

// Puts `-`, which stands for no items or octets, and the character behind it.
pub(crate) fn put_none(out: &mut [u8], at: usize, behind: u8) -> usize
    requires { at + 2 ≤ length out.old }
    ensures { Put out.old at (hyphen ∷ behind ∷ []) result out.new }
{
    out[at] = DASH;
    out[at + 1] = behind;
    at + 2
}

// Puts the text of items.
fn put(out: &mut [u8], at: usize, items: &[u64]) -> usize
    requires { at + length (items_text (items_of items.now)) ≤ length out.old }
    ensures { Put out.old at (items_text (items_of items.now)) result out.new }
{
    if items.len() < 3 {
        return put_none(out, at, LF);
    }
    put_joined(out, at, items)
}

// Writes what stands before the items, and their text.
pub(crate) fn write(out: &mut [u8], at: usize, head: &[u8], items: &[u64]) -> Option<usize>
    ensures { Stored out.old at (head.now ++ items_text (items_of items.now)) result out.new }
{
    if !cdr::fits(out.len(), at, head.len()) {
        return None;
    }
    let end = at + head.len();
    if !fit(items, out.len() - end) {
        return None;
    }
    cdr_write::write_octets(out, at, head);
    Some(put(out, end, items))
}
