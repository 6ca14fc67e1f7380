//! Bytes that are read from the front.

ghost use Rattle.std.specs.Prelude.{◌≡◌, [], ◌↔◌, IsTrue, IfOk, length};
ghost use Rattle.row_codec.specs.Read.{one_byte, some_bytes, eight_at, four_at, text_in_front};
ghost use Rattle.row_codec.specs.Reads.{ReadsFront, ReadsLentFront};

use crate::fault::CodecFault;
use std::marker::Model;

/// What is left of bytes. Contracts see it as the list of these bytes.
#[derive(Drop)]
pub(crate) struct Left<'a> {
    bytes: &'a [u8],
}

impl<'a> Model for Left<'a> {
    ghost use Rattle.std.specs.Prelude.{List, ℕ};

    ghost Value = { List ℕ };

    ghost view = { λ l. l.bytes.now };
}

impl<'a> Left<'a> {
    /// All of the bytes.
    pub(crate) fn new(bytes: &'a [u8]) -> Left<'a>
        ensures { result ≡ bytes.now }
    {
        Left { bytes }
    }

    /// Whether no byte is left.
    pub(crate) fn is_empty(&self) -> bool
        ensures { IsTrue result ↔ (self.now ≡ []) }
    {
        self.bytes.is_empty()
    }

    /// Reads a byte.
    #[tactic(auto, unfolding(crate::specs::Read::one_byte))]
    pub(crate) fn byte(&mut self) -> Result<u8, CodecFault>
        ensures { ReadsFront (one_byte self.old) self.new result }
    {
        match self.bytes {
            [byte, rest @ ..] => {
                self.bytes = rest;
                Ok(*byte)
            }
            [] => Err(CodecFault::Short),
        }
    }

    /// Reads a number in four bytes.
    #[tactic(auto, unfolding(crate::specs::Read::four_at))]
    pub(crate) fn four(&mut self) -> Result<u32, CodecFault>
        ensures { ReadsFront (four_at self.old) self.new result }
    {
        match self.bytes {
            [a, b, c, d, rest @ ..] => {
                self.bytes = rest;
                Ok(u32::from_le_bytes([*a, *b, *c, *d]))
            }
            _ => Err(CodecFault::Short),
        }
    }

    /// Reads a number in eight bytes.
    #[tactic(auto, unfolding(crate::specs::Read::eight_at))]
    pub(crate) fn eight(&mut self) -> Result<u64, CodecFault>
        ensures { ReadsFront (eight_at self.old) self.new result }
    {
        match self.bytes {
            [a, b, c, d, e, f, g, h, rest @ ..] => {
                self.bytes = rest;
                Ok(u64::from_le_bytes([*a, *b, *c, *d, *e, *f, *g, *h]))
            }
            _ => Err(CodecFault::Short),
        }
    }

    /// Reads so many bytes.
    #[tactic(auto, unfolding(crate::specs::Read::some_bytes))]
    pub(crate) fn take(&mut self, count: usize) -> Result<&'a [u8], CodecFault>
        ensures value { ReadsLentFront (some_bytes count self.old) self.new result }
        ensures long { IfOk result (λ part. length part.now ≡ count) }
    {
        if self.bytes.len() < count {
            return Err(CodecFault::Short);
        }
        let (part, rest) = self.bytes.split_at(count);
        self.bytes = rest;
        Ok(part)
    }

    /// Reads a text.
    pub(crate) fn text(&mut self) -> Result<&'a [u8], CodecFault>
        ensures { ReadsLentFront (text_in_front self.old) self.new result }
    {
        let count = self.four()?;
        let text = self.take(count as usize)?;
        Ok(text)
    }
}
