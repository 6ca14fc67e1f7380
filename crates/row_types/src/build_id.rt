//! The id that a linker gives a file.

ghost use Rattle.std.specs.Prelude.{◌≡◌, ◌≤◌, ◌↔◌, Ok, IsTrue, IsSome, IfSome, IfOk, length};
ghost use Rattle.std.specs.String.{string_bytes};
ghost use Rattle.hex.specs.Hex.{decode_of, encode_lower};
ghost use Rattle.row_types.specs.BuildId.{IsHexFor, IsIdLength, IsIdText, padded};
ghost use Rattle.row_types.specs.Limits.{ArePinnedIdLengths};

use std::alloc::{AllocError, Global};
use std::cmp::Ordering;
use std::marker::Model;

/// The number of bytes of the shortest build-id.
pub const SHORTEST_ID: usize = 2;

/// The number of bytes of the longest build-id.
pub const LONGEST_ID: usize = 64;

/// A build-id of 2 to 64 bytes. Contracts see it as the list of its bytes, by which ids are ordered.
#[derive(Clone, Copy)]
pub struct BuildId {
    bytes: [u8; 64],
    len: usize,
}

impl Model for BuildId {
    ghost use Rattle.std.specs.Prelude.{◌≡◌, List, ℕ, length, take};
    ghost use Rattle.row_types.specs.BuildId.{IsPlaced, padded};
    ghost use Rattle.row_types.specs.Inside.{inside_again};

    ghost Value = { List ℕ };

    ghost view = { λ a. take a.len a.bytes };

    ghost invariant = { λ a. IsPlaced a.bytes a.len };

    ghost inverse = { λ v. record { bytes = padded v; len = length v } };

    ghost inverse_ok = { inside_again };
}

impl BuildId {
    /// The id of these bytes.
    pub fn new(bytes: &[u8]) -> Option<BuildId>
        ensures some { IsSome result ↔ IsIdLength (length bytes.now) }
        ensures value { IfSome result (λ id. id ≡ bytes.now) }
        ensures lengths { ArePinnedIdLengths }
    {
        let len = bytes.len();
        if len < SHORTEST_ID || LONGEST_ID < len {
            return None;
        }
        Some(BuildId {
            bytes: with_zeros(bytes),
            len,
        })
    }

    /// The id of these hexadecimal digits, of either case.
    pub fn parse(text: &[u8]) -> Option<BuildId>
        ensures some { IsSome result ↔ IsIdText text.now }
        ensures value { IfSome result (λ id. decode_of text.now ≡ Ok id) }
    {
        let len = text.len() / 2;
        if LONGEST_ID < len {
            return None;
        }
        let mut room = [0; 64];
        if !decodes(text, &mut room[..len]) {
            return None;
        }
        BuildId::new(&room[..len])
    }

    /// The id's bytes.
    pub fn bytes(&self) -> &[u8]
        ensures value { result.now ≡ self.now }
        ensures length { IsIdLength (length self.now) }
    {
        &self.bytes[..self.len]
    }

    /// The id in hexadecimal digits, in lower case.
    pub fn print(&self, alloc: Global) -> Result<String, AllocError>
        ensures { IfOk result (λ text. string_bytes text ≡ encode_lower self.now) }
    {
        hex::encode(alloc, self.bytes())
    }
}

/// Decodes a text that has two digits for each byte of the room, and says whether it is one.
fn decodes(text: &[u8], room: &mut [u8]) -> bool
    ensures ok { IsTrue result ↔ IsHexFor (length room.old) text.now }
    ensures value { IsTrue result → decode_of text.now ≡ Ok room.new }
{
    hex::decode_to_slice(text, room).is_ok()
}

/// The bytes in an array, with zeros behind them.
fn with_zeros(bytes: &[u8]) -> [u8; 64]
    requires { length bytes.now ≤ LONGEST_ID }
    ensures { result ≡ padded bytes.now }
{
    let mut place = [0; 64];
    place[..bytes.len()].copy_from_slice(bytes);
    place
}

impl PartialEq for BuildId {
    ghost use Rattle.std.specs.Prelude.{nat_eq};
    ghost use Rattle.std.specs.Cmp.Lexicographic.{pointwise};
    ghost use Rattle.std.specs.Cmp.{partial_equiv_from_equiv};
    ghost use Rattle.std.proofs.lemmas.Cmp.{nat_list_eq_equiv};

    ghost eq = { pointwise nat_eq };

    ghost laws = { partial_equiv_from_equiv nat_list_eq_equiv };

    fn eq(&self, other: &Self) -> bool {
        self.bytes() == other.bytes()
    }
}

impl Eq for BuildId {
    ghost use Rattle.std.proofs.lemmas.Cmp.{nat_list_eq_equiv};

    ghost laws = { nat_list_eq_equiv };
}

impl PartialOrd for BuildId {
    ghost use Rattle.std.specs.Prelude.{Some};
    ghost use Rattle.std.specs.Ordering.{nat_cmp};
    ghost use Rattle.std.specs.Cmp.Lexicographic.{slice_cmp, texts_po};

    ghost partial_cmp = { λ a b. Some (slice_cmp nat_cmp a b) };

    ghost laws = { texts_po };

    fn partial_cmp(&self, other: &Self) -> Option<Ordering> {
        Some(self.bytes().cmp(other.bytes()))
    }
}

impl Ord for BuildId {
    ghost use Rattle.std.specs.Prelude.{refl};
    ghost use Rattle.std.specs.Ordering.{nat_cmp};
    ghost use Rattle.std.specs.Cmp.Lexicographic.{slice_cmp, texts_ties};
    ghost use Rattle.std.proofs.lemmas.Cmp.{nat_list_cmp_total};

    ghost cmp = { slice_cmp nat_cmp };

    ghost total = { nat_list_cmp_total };

    ghost matches_partial_cmp = { λ a b. refl };

    ghost matches_eq = { texts_ties };

    fn cmp(&self, other: &Self) -> Ordering {
        self.bytes().cmp(other.bytes())
    }
}
