// The decimal digits of a machine word: written into lent memory where they fit, and read.
#![tactic(auto)]

ghost use Rattle.std.specs.Prelude.{◌≡◌, [], ◌∷◌, ◌++◌, ◌<◌, ◌≤◌, length, drop};
ghost use Rattle.cdr_write.specs.Write.{Stored};
ghost use Rattle.decimals.specs.Decimal.{decimal};
ghost use Rattle.decimals.specs.Numerals.{number_word};

mod read;

// The most decimal digits of a machine word.
const DIGITS: usize = 20;

// Stores the decimal digits of a number before the character at DIGITS, and says where they start.
fn last_digits(x: u64, digits: &mut [u8]) -> usize
    requires { 20 ≤ length digits.old }
    ensures { (result < 20) × (drop result digits.new ≡ decimal x ++ drop 20 digits.old) }
{
    let mut rest = x;
    let mut at = DIGITS;
    // No `for`: the digits that are left say when it ends.
    while 10 <= rest {
        at -= 1;
        digits[at] = b'0' + (rest % 10) as u8;
        rest = rest / 10;
    }
    at -= 1;
    digits[at] = b'0' + rest as u8;
    at
}

// Writes the decimal digits of a number and the character behind them from `at` on.
pub fn write_decimal(out: &mut [u8], at: usize, x: u64, behind: u8) -> Option<usize>
    ensures { Stored out.old at (decimal x ++ (behind ∷ [])) result out.new }
{
    let mut digits = [behind; DIGITS + 1];
    let start = last_digits(x, &mut digits);
    cdr_write::write_octets(out, at, &digits[start..])
}

// The number of decimal digits of a number.
pub fn count_digits(x: u64) -> usize
    ensures { result ≡ length (decimal x) }
{
    match x.checked_ilog10() {
        Some(power) => power as usize + 1,
        None => 1,
    }
}

// The number that a word's decimal digits stand for; leading zeros count for nothing.
#[tactic(auto, unfolding(crate::specs::Numerals::number_word, choices::specs::Branch::choose))]
pub fn read_decimal(word: &[u8]) -> Option<u64>
    ensures { result ≡ number_word word.now }
{
    if word.is_empty() {
        return None;
    }
    read::digits(word)
}
