// Lines of hexadecimal: digits of either case to octets, and octets to upper-case digits.
#![tactic(auto)]

ghost use Rattle.std.specs.Prelude.{true, ◌≡◌, ◌*◌, ◌/◌, ◌≤◌, ◌<◌, length};
ghost use Rattle.std.proofs.lemmas.List.Edits.{sets};
ghost use Rattle.hexline.specs.Digit.{is_digit, digit_value, upper_digit};
ghost use Rattle.hexline.specs.Decoding.{all_digits, line_octets, digits_decoded, decoded_of, decoded_number, Decodes};
ghost use Rattle.hexline.specs.Encoding.{octet_digits, encoded_number, Encodes};

// The most characters of a line.
pub const LINE_LIMIT: usize = 8192;

// Why a line's octets are not written.
#[derive(Clone, Copy)]
pub enum Undecoded {
    TooLong,
    NotDigits,
    NoRoom,
}

// The paper's number of what decoding gives, 0 where the octets are written.
// For no room our choice of number: 01's for an output that is too short.
pub fn decoded_number(answer: Result<usize, Undecoded>) -> u32
    ensures { result ≡ decoded_number answer }
{
    match answer {
        Ok(_) => 0,
        Err(Undecoded::TooLong) => refusals::LINE_TOO_LONG,
        Err(Undecoded::NotDigits) => refusals::NOT_DIGITS,
        Err(Undecoded::NoRoom) => refusals::NO_ROOM,
    }
}

// The number of what encoding gives, 0 where the digits are written. For no room our choice of number: 01's for an output that is too short.
pub fn encoded_number(answer: Option<usize>) -> u32
    ensures { result ≡ encoded_number answer }
{
    match answer {
        Some(_) => 0,
        None => refusals::NO_ROOM,
    }
}

// A line's octets, written from the start of `out`; nothing is written on a refusal.
pub fn decode(line: &[u8], out: &mut [u8]) -> Result<usize, Undecoded>
    ensures { Decodes decoded_of line.now out.old result out.new }
{
    if LINE_LIMIT < line.len() {
        return Err(Undecoded::TooLong);
    }
    decode_digits(line, out)
}

// The octets of any number of digits, written from the start of `out`; nothing is written on a refusal.
pub fn decode_digits(digits: &[u8], out: &mut [u8]) -> Result<usize, Undecoded>
    ensures { Decodes digits_decoded digits.now out.old result out.new }
{
    if digits.len() % 2 == 1 || !all_digits(digits) {
        return Err(Undecoded::NotDigits);
    }
    let n = digits.len() / 2;
    if out.len() < n {
        return Err(Undecoded::NoRoom);
    }
    write_octets(digits, out);
    Ok(n)
}

// The upper-case digits of octets, written from the start of `out`, or nothing where they do not fit.
pub fn encode(octets: &[u8], out: &mut [u8]) -> Option<usize>
    ensures { Encodes octets.now out.old result out.new }
{
    // The room is halved, since twice the octets need not fit a usize.
    if out.len() / 2 < octets.len() {
        return None;
    }
    write_digits(octets, out);
    Some(octets.len() * 2)
}

// Whether every character is a digit. No early end.
fn all_digits(characters: &[u8]) -> bool
    ensures { result ≡ all_digits characters.now }
{
    let mut all = true;
    for c in characters {
        all &= is_digit(*c);
    }
    all
}

// The octets of digits, stored from the start of `out`, the rest as it was.
fn write_octets(digits: &[u8], out: &mut [u8])
    requires { (all_digits digits.now ≡ true) × (length digits.now / 2 ≤ length out.old) }
    ensures { out.new ≡ sets out.old 0 (line_octets digits.now) }
{
    for k in 0..digits.len() / 2 {
        let high = digit_value(digits[k * 2]);
        let low = digit_value(digits[k * 2 + 1]);
        out[k] = high * 16 + low;
    }
}

// The digits of octets, stored from the start of `out`, the rest as it was.
fn write_digits(octets: &[u8], out: &mut [u8])
    requires { length octets.now * 2 ≤ length out.old }
    ensures { out.new ≡ sets out.old 0 (octet_digits octets.now) }
{
    for k in 0..octets.len() {
        let x = octets[k];
        out[k * 2] = upper_digit(x / 16);
        out[k * 2 + 1] = upper_digit(x % 16);
    }
}

// Whether a character is a digit of either case.
#[tactic(auto, unfolding(crate::specs::Digit::is_digit))]
fn is_digit(c: u8) -> bool
    ensures { result ≡ is_digit c }
{
    let numeral = (b'0' <= c) & (c <= b'9');
    let upper = (b'A' <= c) & (c <= b'F');
    let lower = (b'a' <= c) & (c <= b'f');
    numeral | upper | lower
}

// The value of a digit. The last four bits of A and of a are 1.
fn digit_value(c: u8) -> u8
    requires { is_digit c ≡ true }
    ensures { result ≡ digit_value c }
{
    if c <= b'9' { c - b'0' } else { c % 16 + 9 }
}

// The upper-case digit of a number below 16.
#[tactic(auto, unfolding(crate::specs::Digit::upper_digit))]
fn upper_digit(v: u8) -> u8
    requires { v < 16 }
    ensures { result ≡ upper_digit v }
{
    if v < 10 { b'0' + v } else { b'A' + (v - 10) }
}
