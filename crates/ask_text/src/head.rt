// The text of the answers before a value's items, a rewritten value's octets, a profile's host or a component's octets, in memory that has
// room for it.
#![tactic(auto, using(crate::proofs::OctetsPut::number_room))]

ghost use Rattle.std.specs.Prelude.{[], ◌∷◌, ◌++◌, ◌+◌, ◌≤◌, length};
ghost use Rattle.cdr.specs.Align.{octets};
ghost use Rattle.decimals.specs.Decimal.{decimal};
ghost use Rattle.decimals.specs.Puts.{Put};
ghost use Rattle.ask_text.specs.Items.{lf};
ghost use Rattle.ask_text.specs.Replies.{space, ok_text, no_text, signed_word, unsigned_word, single_word, double_word};
ghost use Rattle.ask_text.specs.Replies.{signed_text, bits_text, order_text, version_text, head_text};

use crate::Reply;
use cdr::{Order, Size};
use profile::Head;

const SPACE: u8 = b' ';

const LF: u8 = b'\n';

// Puts a number and the character behind it.
pub(crate) fn put_number(out: &mut [u8], at: usize, x: u64, behind: u8) -> usize
    requires { at + length (decimal x ++ (behind ∷ [])) ≤ length out.old }
    ensures { Put out.old at (decimal x ++ (behind ∷ [])) result out.new }
{
    decimals::write_decimal(out, at, x, behind).unwrap_or(at)
}

// Puts two numbers, the second with the character behind it.
pub(crate) fn put_two(out: &mut [u8], at: usize, x: u64, y: u64, behind: u8) -> usize
    requires { at + 42 ≤ length out.old }
    ensures { Put out.old at (decimal x ++ (space ∷ (decimal y ++ (behind ∷ [])))) result out.new }
{
    let next = put_number(out, at, x, SPACE);
    put_number(out, next, y, behind)
}

// Puts `ok USED K`.
fn put_typed(out: &mut [u8], used: u64, kinds: u64) -> usize
    requires { 66 ≤ length out.old }
    ensures { Put out.old 0 (ok_text (decimal used ++ (space ∷ (decimal kinds ++ (lf ∷ []))))) result out.new }
{
    cdr_write::write_octets(out, 0, b"ok ");
    put_two(out, 3, used, kinds, LF)
}

// Puts `ok USED VISITS COUNT` and a space.
fn put_read(out: &mut [u8], used: u64, visits: u64, count: u64) -> usize
    requires { 66 ≤ length out.old }
    ensures { Put out.old 0 (ok_text (decimal used ++ (space ∷ (decimal visits ++ (space ∷ (decimal count ++ (space ∷ [])))))))
        result out.new }
{
    cdr_write::write_octets(out, 0, b"ok ");
    let next = put_number(out, 3, used, SPACE);
    put_two(out, next, visits, count, SPACE)
}

// Puts `no N`.
fn put_refused(out: &mut [u8], number: u64) -> usize
    requires { 66 ≤ length out.old }
    ensures { Put out.old 0 (no_text (decimal number ++ (lf ∷ []))) result out.new }
{
    cdr_write::write_octets(out, 0, b"no ");
    put_number(out, 3, number, LF)
}

// Puts `no N VISITS`.
fn put_unread(out: &mut [u8], number: u64, visits: u64) -> usize
    requires { 66 ≤ length out.old }
    ensures { Put out.old 0 (no_text (decimal number ++ (space ∷ (decimal visits ++ (lf ∷ []))))) result out.new }
{
    cdr_write::write_octets(out, 0, b"no ");
    put_two(out, 3, number, visits, LF)
}

// Puts `ok unsigned X`.
fn put_unsigned(out: &mut [u8], x: u64) -> usize
    requires { 66 ≤ length out.old }
    ensures { Put out.old 0 (ok_text (unsigned_word ++ (space ∷ (decimal x ++ (lf ∷ []))))) result out.new }
{
    cdr_write::write_octets(out, 0, b"ok unsigned ");
    put_number(out, 12, x, LF)
}

// Puts `ok signed X` by the bits of two's complement: from 2^63 on the number is below 0.
fn put_signed(out: &mut [u8], x: u64) -> usize
    requires { 66 ≤ length out.old }
    ensures { Put out.old 0 (ok_text (signed_word ++ (space ∷ (signed_text x ++ (lf ∷ []))))) result out.new }
{
    if x < 9223372036854775808 {
        cdr_write::write_octets(out, 0, b"ok signed ");
        return put_number(out, 10, x, LF);
    }
    cdr_write::write_octets(out, 0, b"ok signed -");
    put_number(out, 11, u64::MAX - x + 1, LF)
}

// Puts the digits of a number's octets, the most significant first, and an LF.
fn put_bits(out: &mut [u8], at: usize, size: Size, x: u64) -> usize
    requires { at + 17 ≤ length out.old }
    ensures { Put out.old at (bits_text (octets size) x ++ (lf ∷ [])) result out.new }
{
    let mut octets = [0u8; 8];
    cdr_write::write_number(&mut octets, 0, size, Order::Big, x);
    let n = size.octets();
    let mut digits = [LF; 17];
    hexline::encode(&octets[..n], &mut digits);
    let end = n * 2 + 1;
    cdr_write::write_octets(out, at, &digits[..end]);
    at + end
}

// Puts `ok single BITS`.
fn put_single(out: &mut [u8], x: u64) -> usize
    requires { 66 ≤ length out.old }
    ensures { Put out.old 0 (ok_text (single_word ++ (space ∷ (bits_text 4 x ++ (lf ∷ []))))) result out.new }
{
    cdr_write::write_octets(out, 0, b"ok single ");
    put_bits(out, 10, Size::Four, x)
}

// Puts `ok double BITS`.
fn put_double(out: &mut [u8], x: u64) -> usize
    requires { 66 ≤ length out.old }
    ensures { Put out.old 0 (ok_text (double_word ++ (space ∷ (bits_text 8 x ++ (lf ∷ []))))) result out.new }
{
    cdr_write::write_octets(out, 0, b"ok double ");
    put_bits(out, 10, Size::Eight, x)
}

// Puts `ok COUNT`, or `ok TAG`, and a space.
fn put_first(out: &mut [u8], x: u64) -> usize
    requires { 66 ≤ length out.old }
    ensures { Put out.old 0 (ok_text (decimal x ++ (space ∷ []))) result out.new }
{
    cdr_write::write_octets(out, 0, b"ok ");
    put_number(out, 3, x, SPACE)
}

// Puts `ok ORDER` and a space.
fn put_order(out: &mut [u8], order: Order) -> usize
    requires { 66 ≤ length out.old }
    ensures { Put out.old 0 (ok_text (order_text order ++ (space ∷ []))) result out.new }
{
    match order {
        Order::Big => {
            cdr_write::write_octets(out, 0, b"ok big ");
            7
        }
        Order::Little => {
            cdr_write::write_octets(out, 0, b"ok little ");
            10
        }
    }
}

// Puts `ok ORDER MAJOR MINOR` and a space.
fn put_version(out: &mut [u8], head: Head) -> usize
    requires { 66 ≤ length out.old }
    ensures { Put out.old 0 (ok_text (version_text head)) result out.new }
{
    let order = head.order;
    let next = put_order(out, order);
    put_two(out, next, head.major as u64, head.minor as u64, SPACE)
}

// Puts an answer from the start of `out`.
pub(crate) fn put(out: &mut [u8], reply: Reply) -> usize
    requires { 66 ≤ length out.old }
    ensures { Put out.old 0 (head_text reply) result out.new }
{
    match reply {
        Reply::Typed { used, kinds } => put_typed(out, used as u64, kinds as u64),
        Reply::Read {
            used,
            visits,
            count,
        } => put_read(out, used as u64, visits, count as u64),
        Reply::Refused(number) => put_refused(out, number as u64),
        Reply::Unread { number, visits } => put_unread(out, number as u64, visits),
        Reply::Signed(x) => put_signed(out, x),
        Reply::Unsigned(x) => put_unsigned(out, x),
        Reply::Single(x) => put_single(out, x),
        Reply::Double(x) => put_double(out, x),
        Reply::Rewritten(count) => put_first(out, count as u64),
        Reply::Profiled(said, _) => put_version(out, said.head),
        Reply::Component(tag, _, _) => put_first(out, tag),
        Reply::NoQuestion => {
            out[0] = b'?';
            out[1] = LF;
            2
        }
    }
}
