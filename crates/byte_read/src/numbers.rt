//! The number that a few bytes spell.

ghost use Rattle.std.specs.Prelude.{◌≡◌};
ghost use Rattle.file_formats.specs.Numbers.{number};

use file_formats::Order;

pub(crate) fn u16_of(bytes: [u8; 2], order: Order) -> u16
    ensures { result ≡ number order bytes }
{
    match order {
        Order::Little => u16::from_le_bytes(bytes),
        Order::Big => u16::from_be_bytes(bytes),
    }
}

pub(crate) fn u24_of(bytes: [u8; 3], order: Order) -> u32
    ensures { result ≡ number order bytes }
{
    let [first, second, third] = bytes;
    match order {
        Order::Little => u32::from_le_bytes([first, second, third, 0]),
        Order::Big => u32::from_be_bytes([0, first, second, third]),
    }
}

pub(crate) fn u32_of(bytes: [u8; 4], order: Order) -> u32
    ensures { result ≡ number order bytes }
{
    match order {
        Order::Little => u32::from_le_bytes(bytes),
        Order::Big => u32::from_be_bytes(bytes),
    }
}

pub(crate) fn u64_of(bytes: [u8; 8], order: Order) -> u64
    ensures { result ≡ number order bytes }
{
    match order {
        Order::Little => u64::from_le_bytes(bytes),
        Order::Big => u64::from_be_bytes(bytes),
    }
}
