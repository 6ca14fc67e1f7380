//! Numbers and texts at places of a slice, for a reader that goes by places and not from left to
//! right.

ghost use Rattle.std.specs.Prelude.{◌≡◌, ◌+◌, ◌≤◌, length};
ghost use Rattle.std.specs.Option.{option_copied};
ghost use Rattle.file_formats.specs.Numbers.{bytes_at, number};
ghost use Rattle.file_formats.specs.Sections as sections;

use crate::numbers::{u16_of, u32_of, u64_of};
use crate::text::text_size;
use file_formats::Order;

/// The N bytes from a place on.
fn chunk_at<const N: usize>(bytes: &[u8], at: usize) -> [u8; N]
    requires { at + N ≤ length bytes.now }
    ensures { result ≡ bytes_at bytes.now at N }
{
    match bytes[at..].first_chunk::<N>() {
        Some(chunk) => *chunk,
        None => unreachable!(),
    }
}

/// The two bytes from place `at` on, as a number.
pub fn u16_at(bytes: &[u8], at: usize, order: Order) -> u16
    requires { at + 2 ≤ length bytes.now }
    ensures { result ≡ number order (bytes_at bytes.now at 2) }
{
    u16_of(chunk_at(bytes, at), order)
}

/// The four bytes from place `at` on, as a number.
pub fn u32_at(bytes: &[u8], at: usize, order: Order) -> u32
    requires { at + 4 ≤ length bytes.now }
    ensures { result ≡ number order (bytes_at bytes.now at 4) }
{
    u32_of(chunk_at(bytes, at), order)
}

/// The eight bytes from place `at` on, as a number.
pub fn u64_at(bytes: &[u8], at: usize, order: Order) -> u64
    requires { at + 8 ≤ length bytes.now }
    ensures { result ≡ number order (bytes_at bytes.now at 8) }
{
    u64_of(chunk_at(bytes, at), order)
}

/// The bytes from place `at` to the next 0.
pub fn text_at(bytes: &[u8], at: usize) -> Option<&[u8]>
    ensures { option_copied result ≡ sections.text_at bytes.now at }
{
    let rest = bytes.get(at..)?;
    Some(&rest[..text_size(rest)?])
}
