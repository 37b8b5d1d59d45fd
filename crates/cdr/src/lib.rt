// CDR, the encoding of GIOP: alignment, and numbers of 1, 2, 4 and 8 octets in either byte order, as they are read. Every function
// answers for any slice and index.
#![tactic(auto)]

ghost use Rattle.std.specs.Prelude.{◌≡◌};
ghost use Rattle.cdr.specs.Align.{octets, gap, aligned_of};
ghost use Rattle.cdr.specs.Orders.{order_octet, order_of, order_of_flag};
ghost use Rattle.cdr.specs.Number.{read_of, sign_extended};
ghost use Rattle.cdr.specs.Limit.{fits};

mod load;

// The most octets of a TypeCode, a value, a profile body or a message whose header is read.
pub const OCTETS_LIMIT: usize = 16384;

// Whether `count` octets fit from `at` on in `len`.
pub fn fits(len: usize, at: usize, count: usize) -> bool
    ensures { result ≡ fits len at count }
{
    at <= len && count <= len - at
}

// A byte order.
#[derive(Clone, Copy, PartialEq, Eq)]
pub enum Order {
    Big,
    Little,
}

impl Order {
    // The octet that names the order in an encapsulation.
    pub fn octet(self) -> u8
        ensures { result ≡ order_octet self }
    {
        match self {
            Order::Big => 0,
            Order::Little => 1,
        }
    }

    // The order that an octet of an encapsulation names.
    pub fn named(octet: u8) -> Option<Order>
        ensures { result ≡ order_of octet }
    {
        match octet {
            0 => Some(Order::Big),
            1 => Some(Order::Little),
            _ => None,
        }
    }

    // The order that a flag says.
    pub fn flagged(little: bool) -> Order
        ensures { result ≡ order_of_flag little }
    {
        if little { Order::Little } else { Order::Big }
    }
}

// The size of a primitive.
#[derive(Clone, Copy)]
pub enum Size {
    One,
    Two,
    Four,
    Eight,
}

impl Size {
    // The octets of the size.
    pub fn octets(self) -> usize
        ensures { result ≡ octets self }
    {
        match self {
            Size::One => 1,
            Size::Two => 2,
            Size::Four => 4,
            Size::Eight => 8,
        }
    }
}

// The index of an octet in its encapsulation; alignment is counted in it.
#[derive(Clone, Copy)]
pub struct Index(pub usize);

// The place of an octet in the whole TypeCode; indirections are counted in it.
#[derive(Clone, Copy)]
pub struct Place(pub usize);

impl Index {
    // The first octet of an encapsulation.
    pub const START: Index = Index(0);

    // The smallest gap before a multiple of the size.
    pub fn gap(self, size: Size) -> usize
        ensures { result ≡ gap self.0 (octets size) }
    {
        let i = self.0;
        match size {
            Size::One => 0,
            Size::Two => (2 - i % 2) % 2,
            Size::Four => (4 - i % 4) % 4,
            Size::Eight => (8 - i % 8) % 8,
        }
    }

    // The next index that is a multiple of the size, this one included.
    pub fn aligned(self, size: Size) -> Option<Index>
        ensures { result ≡ aligned_of self size }
    {
        let i = self.0;
        let g = self.gap(size);
        if g <= usize::MAX - i {
            Some(Index(i + g))
        } else {
            None
        }
    }
}

// The number of the size that starts at or after `at`; `start` is the index of the slice's first octet.
pub fn read_number(
    s: &[u8],
    start: Index,
    at: usize,
    size: Size,
    order: Order,
) -> Option<(usize, u64)>
    ensures { result ≡ read_of s.now start at size order }
{
    if s.len() < at {
        return None;
    }
    // Alignment counts modulo 8, so that no start can make the index wrap.
    let first = start.0 % 8;
    let index = Index(first + at).aligned(size)?;
    let p = index.0 - first;
    if s.len() < p + size.octets() {
        return None;
    }
    Some((p, load::number(s, p, size, order)))
}

// The two's complement number of the size, as one of eight octets.
pub fn sign_extended(size: Size, x: u64) -> u64
    ensures { result ≡ sign_extended (octets size) x }
{
    match size {
        Size::One => load::extended(x % 256, 256),
        Size::Two => load::extended(x % 65536, 65536),
        Size::Four => load::extended(x % 4294967296, 4294967296),
        Size::Eight => x,
    }
}
