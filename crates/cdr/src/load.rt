// Reading octets that are known to be there.
ghost use Rattle.std.specs.Prelude.{◌≡◌, cond, ◌+◌, ◌-◌, ◌*◌, ◌^◌, ◌≤◌, ◌<◌, ltb, length};
ghost use Rattle.cdr.specs.Align.{octets};
ghost use Rattle.cdr.specs.Inner.{Loaded};

use crate::{Order, Size};

// An octet, as a number.
fn wide(x: u8) -> u64
    ensures { (result ≡ x) × (result < 256) }
{
    x as u64
}

// A number whose two halves are below `base`.
fn wider(high: u64, low: u64, base: u64) -> u64
    requires { (high < base) × (low < base) × (base ≤ 2 ^ 32) }
    ensures { (result ≡ high * base + low) × (result < base * base) }
{
    high * base + low
}

// The number of one octet.
fn number1(s: &[u8], at: usize, order: Order) -> u64
    requires { at + 1 ≤ length s.now }
    ensures { Loaded s.now at 1 order result }
{
    wide(s[at])
}

// The number of two octets.
fn number2(s: &[u8], at: usize, order: Order) -> u64
    requires { at + 2 ≤ length s.now }
    ensures { Loaded s.now at 2 order result }
{
    match order {
        Order::Big => wider(number1(s, at, order), number1(s, at + 1, order), 256),
        Order::Little => wider(number1(s, at + 1, order), number1(s, at, order), 256),
    }
}

// The number of four octets.
fn number4(s: &[u8], at: usize, order: Order) -> u64
    requires { at + 4 ≤ length s.now }
    ensures { Loaded s.now at 4 order result }
{
    match order {
        Order::Big => wider(number2(s, at, order), number2(s, at + 2, order), 65536),
        Order::Little => wider(number2(s, at + 2, order), number2(s, at, order), 65536),
    }
}

// The number of eight octets.
fn number8(s: &[u8], at: usize, order: Order) -> u64
    requires { at + 8 ≤ length s.now }
    ensures { Loaded s.now at 8 order result }
{
    match order {
        Order::Big => wider(number4(s, at, order), number4(s, at + 4, order), 4294967296),
        Order::Little => wider(number4(s, at + 4, order), number4(s, at, order), 4294967296),
    }
}

// The number of a size.
pub(crate) fn number(s: &[u8], at: usize, size: Size, order: Order) -> u64
    requires { at + octets size ≤ length s.now }
    ensures { Loaded s.now at (octets size) order result }
{
    match size {
        Size::One => number1(s, at, order),
        Size::Two => number2(s, at, order),
        Size::Four => number4(s, at, order),
        Size::Eight => number8(s, at, order),
    }
}

// A two's complement number below `range`, as one of eight octets.
pub(crate) fn extended(x: u64, range: u64) -> u64
    requires { (x < range) × (range ≤ 2 ^ 32) }
    ensures { result ≡ cond (ltb (x * 2) range) x (x + (2 ^ 64 - range)) }
{
    if x * 2 < range {
        x
    } else {
        x + (u64::MAX - (range - 1))
    }
}
