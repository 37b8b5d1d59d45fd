// A single item of a value: the number, signed or not, or the float that its kind makes of its content. Every function answers for any
// kind, content and item.
#![tactic(auto)]

ghost use Rattle.std.specs.Prelude.{◌≡◌};
ghost use Rattle.std.specs.Float.{binary32, binary64};
ghost use Rattle.std.specs.Float.Ieee.{of_bits};
ghost use Rattle.value_items.specs.Items.{signed_kind, single_of, item_of, item_case, bits_of};

// What an item is; a float has the recorded bits beside it.
#[derive(Clone, Copy)]
pub enum ItemValue {
    Signed(i64),
    Unsigned(u64),
    Single { bits: u32, value: f32 },
    Double { bits: u64, value: f64 },
}

// The item of a kind with this content.
pub fn item_of(kind: u64, content: u64) -> ItemValue
    ensures { result ≡ item_of kind content }
{
    if is_signed(kind) {
        return ItemValue::Signed(content.cast_signed());
    }
    match kind {
        type_numbers::FLOAT => single_of(content),
        type_numbers::DOUBLE => ItemValue::Double {
            bits: content,
            value: double(content),
        },
        _ => ItemValue::Unsigned(content),
    }
}

// Whether the kind is one of the signed ones: short, long and long long.
pub fn is_signed(kind: u64) -> bool
    ensures { result ≡ signed_kind kind }
{
    matches!(
        kind,
        type_numbers::SHORT | type_numbers::LONG | type_numbers::LONG_LONG
    )
}

// The single float of the content's last 32 bits.
fn single_of(content: u64) -> ItemValue
    ensures { result ≡ single_of content }
{
    let bits = (content % 4294967296) as u32;
    ItemValue::Single {
        bits,
        value: single(bits),
    }
}

// The float of a pattern of 32 bits.
fn single(bits: u32) -> f32
    ensures { result ≡ of_bits binary32 bits }
{
    // What lies above the infinity's pattern, the sign left out, is a NaN's.
    if 0x7f80_0000 < bits % 0x8000_0000 {
        0.0 / 0.0
    } else {
        f32::from_bits(bits)
    }
}

// The float of a pattern of 64 bits.
fn double(bits: u64) -> f64
    ensures { result ≡ of_bits binary64 bits }
{
    if 0x7ff0_0000_0000_0000 < bits % 0x8000_0000_0000_0000 {
        0.0 / 0.0
    } else {
        f64::from_bits(bits)
    }
}

impl ItemValue {
    // Which case the item is: 0 signed, 1 unsigned, 2 single, 3 double.
    pub fn case(self) -> u64
        ensures { result ≡ item_case self }
    {
        match self {
            ItemValue::Signed(_) => 0,
            ItemValue::Unsigned(_) => 1,
            ItemValue::Single { .. } => 2,
            ItemValue::Double { .. } => 3,
        }
    }

    // The content's 64 bits.
    pub fn bits(self) -> u64
        ensures { result ≡ bits_of self }
    {
        match self {
            ItemValue::Signed(x) => x.cast_unsigned(),
            ItemValue::Unsigned(x) => x,
            ItemValue::Single { bits, .. } => u64::from(bits),
            ItemValue::Double { bits, .. } => bits,
        }
    }
}
