// Texts, and octets that a count stands before: the rule of a string, which types, values, profiles and headers share. Every function answers for
// any slice and length.
#![tactic(auto)]

ghost use Rattle.std.specs.Prelude.{◌≡◌};
ghost use Rattle.cdr_text.specs.Text.{over_bound, has_zero, ends_text, text_of, run_of};

// Whether a count is over a bound, of which 0 is none.
#[tactic(auto, unfolding(crate::specs::Text::over_bound))]
pub fn over_bound(count: usize, bound: usize) -> bool
    ensures { result ≡ over_bound count bound }
{
    bound != 0 && bound < count
}

// The first rule that a text's octets break.
#[derive(Clone, Copy)]
pub enum TextFault {
    Empty,
    Over,
    Short,
    Zeros,
}

// The text of `length` octets from `at` on, its final zero among them, with a bound of which 0 is none.
pub fn read_text(s: &[u8], at: usize, length: usize, bound: usize) -> Result<usize, TextFault>
    ensures { result ≡ text_of s.now at length bound }
{
    if length == 0 {
        return Err(TextFault::Empty);
    }
    if over_bound(length - 1, bound) {
        return Err(TextFault::Over);
    }
    let end = read_run(s, at, length).ok_or(TextFault::Short)?;
    if ends_text(&s[at..end]) {
        Ok(length - 1)
    } else {
        Err(TextFault::Zeros)
    }
}

// The run of `count` octets from `at` on.
pub fn read_run(s: &[u8], at: usize, count: usize) -> Option<usize>
    ensures { result ≡ run_of s.now at count }
{
    let end = at.checked_add(count)?;
    if end <= s.len() { Some(end) } else { None }
}

// Whether an octet is zero. All of them are looked at: without a way out of the loop many are compared at once.
fn has_zero(s: &[u8]) -> bool
    ensures { result ≡ has_zero s.now }
{
    let mut found = false;
    for octet in s {
        if *octet == 0 {
            found = true;
        }
    }
    found
}

// Whether the last octet is zero, and no earlier one.
fn ends_text(s: &[u8]) -> bool
    ensures { result ≡ ends_text s.now }
{
    let Some((last, before)) = s.split_last() else {
        return false;
    };
    *last == 0 && !has_zero(before)
}
