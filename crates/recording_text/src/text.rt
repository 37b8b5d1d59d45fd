// The text of the answers, where there is room for it.
ghost use Rattle.std.specs.Prelude.{◌+◌, ◌*◌, ◌≤◌, [], ◌∷◌, ◌++◌, length};
ghost use Rattle.decimals.specs.Decimal.{decimal};
ghost use Rattle.decimals.specs.Puts.{Put};
ghost use Rattle.hexline.specs.Encoding.{octet_digits};
ghost use Rattle.lines.specs.Lines.{lf};
ghost use Rattle.recording_text.specs.Text.{space, dash, line_text, end_text};

const SPACE: u8 = b' ';

const DASH: u8 = b'-';

const LF: u8 = b'\n';

// Puts a number and the character behind it.
fn put_number(out: &mut [u8], at: usize, x: u64, behind: u8) -> usize
    requires { at + 21 ≤ length out.old }
    ensures { Put out.old at (decimal x ++ (behind ∷ [])) result out.new }
{
    decimals::write_decimal(out, at, x, behind).unwrap_or(at)
}

// Puts `LINE ANSWER `.
fn put_numbers(out: &mut [u8], at: usize, line: u64, answer: u32) -> usize
    requires { at + 42 ≤ length out.old }
    ensures { Put out.old at (decimal line ++ (space ∷ (decimal answer ++ (space ∷ [])))) result out.new }
{
    let counted = put_number(out, at, line, SPACE);
    put_number(out, counted, answer as u64, SPACE)
}

// Puts that there is no message, and the end of the line.
fn put_dash(out: &mut [u8], at: usize) -> usize
    requires { at + 2 ≤ length out.old }
    ensures { Put out.old at (dash ++ (lf ∷ [])) result out.new }
{
    out[at] = DASH;
    out[at + 1] = LF;
    at + 2
}

// Puts a message, and the end of the line.
fn put_message(out: &mut [u8], at: usize, message: &[u8]) -> usize
    requires { at + (length message.now * 2 + 1) ≤ length out.old }
    ensures { Put out.old at (octet_digits message.now ++ (lf ∷ [])) result out.new }
{
    hexline::encode(message, &mut out[at..]);
    let end = at + message.len() * 2;
    out[end] = LF;
    end + 1
}

// Puts a line's answer without a message.
pub(crate) fn put_unshown(out: &mut [u8], at: usize, line: u64, answer: u32) -> usize
    requires { at + 44 ≤ length out.old }
    ensures { Put out.old at (line_text line answer dash) result out.new }
{
    let numbered = put_numbers(out, at, line, answer);
    put_dash(out, numbered)
}

// Puts a line's answer with its message.
pub(crate) fn put_shown(out: &mut [u8], at: usize, line: u64, answer: u32, message: &[u8]) -> usize
    requires { at + (43 + length message.now * 2) ≤ length out.old }
    ensures { Put out.old at (line_text line answer (octet_digits message.now)) result out.new }
{
    let numbered = put_numbers(out, at, line, answer);
    put_message(out, numbered, message)
}

// Puts the closing line.
pub(crate) fn put_end(out: &mut [u8], at: usize, lines: u64, count: u64) -> usize
    requires { at + 46 ≤ length out.old }
    ensures { Put out.old at (end_text lines count) result out.new }
{
    cdr_write::write_octets(out, at, b"end ");
    let counted = put_number(out, at + 4, lines, SPACE);
    put_number(out, counted, count, LF)
}
