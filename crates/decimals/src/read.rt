// Decimal digits, read one after the other.
ghost use Rattle.std.specs.Prelude.{◌≡◌};
ghost use Rattle.decimals.specs.Numerals.{onward, number_from};

// The number with one more digit behind it.
fn onward(x: u64, c: u8) -> Option<u64>
    ensures { result ≡ onward x c }
{
    if !c.is_ascii_digit() {
        return None;
    }
    let d = u64::from(c - b'0');
    x.checked_mul(10)?.checked_add(d)
}

// The number of any digits, 0 of none.
pub(crate) fn digits(word: &[u8]) -> Option<u64>
    ensures { result ≡ number_from 0 word.now }
{
    let mut x = 0;
    for c in word {
        x = onward(x, *c)?;
    }
    Some(x)
}
