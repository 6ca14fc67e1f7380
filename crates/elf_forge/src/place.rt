//! Where generated files stand.

ghost use Rattle.std.specs.Prelude.{◌≡◌, ℕ, ◌-◌, ◌≤◌, ◌<◌, length, IfSome};
ghost use Rattle.std.specs.Str.{bytes_eq};
ghost use Rattle.elf_forge.specs.Forge.{forged};
ghost use Rattle.elf_forge.specs.Place.{forged_path, forged_number_at, forged_number_in, forged_stamp};

use crate::digits::{FILES_LIMIT, six_digits};
use crate::kind::{Kind, kind_of};
use row_types::Stamp;

/// The path of the file of a number.
fn file_path(k: u64) -> [u8; 11]
    ensures { result ≡ forged_path k }
{
    let [a, b, c, d, e, f] = six_digits(k);
    [b'/', b't', b'/', b'f', b'/', a, b, c, d, e, f]
}

/// The number of the last six bytes of a path of a file's length, if they are digits.
fn number_in(path: &[u8]) -> u64
    requires { length path.now ≡ 11 }
    ensures { result ≡ forged_number_in path.now }
{
    digit(path[5]) * 100_000
        + digit(path[6]) * 10_000
        + digit(path[7]) * 1_000
        + digit(path[8]) * 100
        + digit(path[9]) * 10
        + digit(path[10])
}

/// The value of a digit.
fn digit(byte: u8) -> u64
    ensures value { result ≡ byte - 48 }
    ensures bound { result < 256 }
{
    byte.saturating_sub(b'0') as u64
}

/// The number of the file at a path, among so many files.
#[tactic(auto, using(crate::proofs::NumberLemmas::none_short, crate::proofs::NumberLemmas::none_other, crate::proofs::NumberLemmas::some_path))]
pub fn number_at(files: u64, path: &str) -> Option<u64>
    requires { files ≤ FILES_LIMIT }
    ensures value { result ≡ forged_number_at files path.now }
    ensures bound { IfSome result (λ k. k < files) }
{
    let bytes = path.as_bytes();
    if bytes.len() != 11 {
        return None;
    }
    let k = number_in(bytes);
    if k < files && is_path_of(bytes, k) {
        Some(k)
    } else {
        None
    }
}

/// Whether a path is that of the file of a number.
fn is_path_of(path: &[u8], k: u64) -> bool
    ensures { result ≡ bytes_eq (forged_path k) path.now }
{
    file_path(k).as_slice() == path
}

/// The size of the file of a number, in bytes.
#[tactic(auto, using(crate::proofs::SizeLemmas::forged_long))]
fn size_of(k: u64) -> u64
    ensures { (seed : ℕ) → result ≡ length (forged seed k) }
{
    match kind_of(k) {
        Kind::Whole => 1024,
        Kind::Executable => 408,
        Kind::Companion => 584,
        Kind::Text => 12,
    }
}

/// The stamp of the file of a seed and a number.
pub fn stamp_of(seed: u64, k: u64) -> Stamp
    ensures { result ≡ forged_stamp seed k }
{
    Stamp {
        size: size_of(k),
        secs: 0,
        nanos: 0,
    }
}
