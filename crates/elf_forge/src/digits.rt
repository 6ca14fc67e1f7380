//! Numbers in six decimal digits.

ghost use Rattle.std.specs.Prelude.{◌≡◌, ◌∷◌, [], IfOk};
ghost use Rattle.std.specs.String.{string_bytes};
ghost use Rattle.elf_forge.specs.Forge.{last_digit, six_digits};

use std::alloc::{AllocError, Global};

/// How many numbers six digits tell apart, from 0 on.
pub const FILES_LIMIT: u64 = 1_000_000;

/// The last digit of a number.
fn last_digit(n: u64) -> u8
    ensures { result ≡ last_digit n }
{
    b'0' + (n % 10) as u8
}

/// The six digits of a number.
pub fn six_digits(k: u64) -> [u8; 6]
    ensures { result ≡ six_digits k }
{
    [
        last_digit(k / 100_000),
        last_digit(k / 10_000),
        last_digit(k / 1_000),
        last_digit(k / 100),
        last_digit(k / 10),
        last_digit(k),
    ]
}

/// The last digit of a number as a text.
fn digit_text(n: u64) -> &'static str
    ensures { result.now ≡ last_digit n ∷ [] }
{
    match n % 10 {
        0 => "0",
        1 => "1",
        2 => "2",
        3 => "3",
        4 => "4",
        5 => "5",
        6 => "6",
        7 => "7",
        8 => "8",
        _ => "9",
    }
}

/// The six digits of a number as a text.
pub fn digits_text(alloc: Global, k: u64) -> Result<String, AllocError>
    ensures { IfOk result (λ text. string_bytes text ≡ six_digits k) }
{
    let mut text = String::new(alloc);
    text.push_str(digit_text(k / 100_000))?;
    text.push_str(digit_text(k / 10_000))?;
    text.push_str(digit_text(k / 1_000))?;
    text.push_str(digit_text(k / 100))?;
    text.push_str(digit_text(k / 10))?;
    text.push_str(digit_text(k))?;
    Ok(text)
}
