//! LEB128 numbers of any length at the front of some bytes.

ghost use Rattle.std.specs.Prelude.{◌≡◌, ◌+◌, ◌*◌, ◌<◌, ◌≤◌, ℕ, length, if◌then◌else◌, pos, negsuc, IfSome};
ghost use Rattle.file_formats.specs.Leb128.{continued, septets, signed_septets};
ghost use Rattle.byte_read.specs.Reads.{fits_u64, fits_i64};
ghost use Rattle.byte_read.specs.Septets.{digit_of, fitting, leb_of, sum_with, turned, unsigned};

use file_formats::{SEPTET_SIGN, SEPTET_VALUES, septet};

/// A number whose last byte is there.
#[derive(Drop)]
pub(crate) struct Leb<N> {
    /// The number, None where its type doesn't have it.
    pub(crate) number: Option<N>,
    /// How many bytes it has.
    pub(crate) size: usize,
}

/// A sum of septets, each worth SEPTET_VALUES times the one before.
#[derive(Clone, Copy)]
struct Septets {
    /// The sum, None where 64 bits don't hold it.
    sum: Option<u64>,
    /// What the next septet is worth, None where 64 bits don't hold it.
    worth: Option<u64>,
}

impl Septets {
    fn new() -> Self
        ensures { result ≡ sum_with 0 1 }
    {
        Septets {
            sum: Some(0),
            worth: Some(1),
        }
    }

    fn add(&mut self, septet: u8)
        ensures { (sum worth : ℕ) → self.old ≡ sum_with sum worth
            → self.new ≡ sum_with (sum + septet * worth) (worth * SEPTET_VALUES) }
    {
        self.sum = with_septet(self.sum, septet, self.worth);
        self.worth = next_worth(self.worth);
    }
}

fn with_septet(sum: Option<u64>, septet: u8, worth: Option<u64>) -> Option<u64>
    ensures { (m n : ℕ) → sum ≡ fitting fits_u64 m → worth ≡ fitting fits_u64 n
        → result ≡ fitting fits_u64 (m + septet * n) }
{
    if septet == 0 {
        return sum;
    }
    let part = u128::from(septet) * u128::from(worth?);
    u64::try_from(u128::from(sum?) + part).ok()
}

fn next_worth(worth: Option<u64>) -> Option<u64>
    ensures { (n : ℕ) → worth ≡ fitting fits_u64 n → result ≡ fitting fits_u64 (n * SEPTET_VALUES) }
{
    worth?.checked_mul(u64::from(SEPTET_VALUES))
}

/// What a byte of a number adds: its septet, which a negative number has turned over.
fn digit(byte: u8, is_negative: bool) -> u8
    ensures { result ≡ digit_of is_negative byte }
{
    if is_negative {
        SEPTET_VALUES - 1 - septet(byte)
    } else {
        septet(byte)
    }
}

/// The sum of the septets of all these bytes.
fn sum_of(bytes: &[u8], is_negative: bool) -> Option<u64>
    ensures { result ≡ fitting fits_u64 (septets (turned is_negative bytes.now)) }
{
    let mut all = Septets::new();
    for byte in bytes {
        all.add(digit(*byte, is_negative));
    }
    all.sum
}

/// The number of this sum, by its sign.
fn with_sign(sum: Option<u64>, is_negative: bool) -> Option<i64>
    ensures { (n : ℕ) → sum ≡ fitting fits_u64 n
        → result ≡ fitting fits_i64 (if is_negative then negsuc n else pos n) }
{
    let sum = i64::try_from(sum?).ok()?;
    Some(if is_negative { -1 - sum } else { sum })
}

/// The index of the last byte of the number at the front.
fn last_byte(bytes: &[u8]) -> Option<usize>
    ensures value { result ≡ continued bytes.now 0 }
    ensures within { IfSome result (λ last. last < length bytes.now) }
{
    bytes.iter().position(|byte| *byte < SEPTET_VALUES)
}

/// The unsigned number at the front of the bytes, of any length.
fn long_uleb_of(bytes: &[u8]) -> Option<Leb<u64>>
    ensures value { result ≡ leb_of fits_u64 unsigned bytes.now }
    ensures within { IfSome result (λ leb. leb.size ≤ length bytes.now) }
{
    let last = last_byte(bytes)?;
    Some(Leb {
        number: sum_of(&bytes[..last + 1], false),
        size: last + 1,
    })
}

/// The unsigned number at the front of the bytes. Most have one byte.
#[tactic(auto, using(crate::proofs::LebLemmas::one_first))]
#[inline(always)]
pub(crate) fn uleb_of(bytes: &[u8]) -> Option<Leb<u64>>
    ensures value { result ≡ leb_of fits_u64 unsigned bytes.now }
    ensures within { IfSome result (λ leb. leb.size ≤ length bytes.now) }
{
    match bytes {
        [first, ..] if *first < SEPTET_VALUES => Some(Leb {
            number: Some(u64::from(*first)),
            size: 1,
        }),
        _ => long_uleb_of(bytes),
    }
}

/// The signed number at the front of the bytes.
pub(crate) fn sleb_of(bytes: &[u8]) -> Option<Leb<i64>>
    ensures value { result ≡ leb_of fits_i64 signed_septets bytes.now }
    ensures within { IfSome result (λ leb. leb.size ≤ length bytes.now) }
{
    let last = last_byte(bytes)?;
    let is_negative = bytes[last] / SEPTET_SIGN % 2 == 1;
    Some(Leb {
        number: with_sign(sum_of(&bytes[..last + 1], is_negative), is_negative),
        size: last + 1,
    })
}
