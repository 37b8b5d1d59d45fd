// Writing octets that are known to fit.
ghost use Rattle.std.specs.Prelude.{◌≡◌, ◌+◌, ◌≤◌, ◌<◌, length, replicate};
ghost use Rattle.std.proofs.lemmas.List.Edits.{sets};
ghost use Rattle.cdr.specs.Align.{octets};
ghost use Rattle.cdr.specs.Number.{octets_of};
ghost use Rattle.cdr.specs.Inner.{first_half, second_half};

use cdr::{Order, Size};

// Stores a number of one octet.
fn number1(out: &mut [u8], at: usize, order: Order, x: u64)
    requires { at + 1 ≤ length out.old }
    ensures { out.new ≡ sets out.old at (octets_of order 1 x) }
{
    out[at] = (x % 256) as u8;
}

// A number whose last octets are the first half of another's.
fn first_half(order: Order, x: u64, base: u64) -> u64
    requires { 0 < base }
    ensures { result ≡ first_half order base x }
{
    match order {
        Order::Big => x / base,
        Order::Little => x,
    }
}

// A number whose last octets are the second half of another's.
fn second_half(order: Order, x: u64, base: u64) -> u64
    requires { 0 < base }
    ensures { result ≡ second_half order base x }
{
    match order {
        Order::Big => x,
        Order::Little => x / base,
    }
}

// Stores a number of two octets.
fn number2(out: &mut [u8], at: usize, order: Order, x: u64)
    requires { at + 2 ≤ length out.old }
    ensures { out.new ≡ sets out.old at (octets_of order 2 x) }
{
    number1(out, at, order, first_half(order, x, 256));
    number1(out, at + 1, order, second_half(order, x, 256));
}

// Stores a number of four octets.
fn number4(out: &mut [u8], at: usize, order: Order, x: u64)
    requires { at + 4 ≤ length out.old }
    ensures { out.new ≡ sets out.old at (octets_of order 4 x) }
{
    number2(out, at, order, first_half(order, x, 65536));
    number2(out, at + 2, order, second_half(order, x, 65536));
}

// Stores a number of eight octets.
fn number8(out: &mut [u8], at: usize, order: Order, x: u64)
    requires { at + 8 ≤ length out.old }
    ensures { out.new ≡ sets out.old at (octets_of order 8 x) }
{
    number4(out, at, order, first_half(order, x, 4294967296));
    number4(out, at + 4, order, second_half(order, x, 4294967296));
}

// Stores a number of a size.
pub(crate) fn number(out: &mut [u8], at: usize, size: Size, order: Order, x: u64)
    requires { at + octets size ≤ length out.old }
    ensures { out.new ≡ sets out.old at (octets_of order (octets size) x) }
{
    match size {
        Size::One => number1(out, at, order, x),
        Size::Two => number2(out, at, order, x),
        Size::Four => number4(out, at, order, x),
        Size::Eight => number8(out, at, order, x),
    }
}

// Stores zeros.
pub(crate) fn zeros(out: &mut [u8], at: usize, count: usize)
    requires { at + count ≤ length out.old }
    ensures { out.new ≡ sets out.old at (replicate count 0) }
{
    out[at..at + count].fill(0);
}

// Stores octets as they are.
pub(crate) fn copy(out: &mut [u8], at: usize, octets: &[u8])
    requires { at + length «octets».now ≤ length out.old }
    ensures { out.new ≡ sets out.old at «octets».now }
{
    // No `copy_from_slice`: it takes memmove, which nothing else in the archive for C needs from outside.
    for k in 0..octets.len() {
        out[at + k] = octets[k];
    }
}
