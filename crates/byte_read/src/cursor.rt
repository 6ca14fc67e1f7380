//! A place in bytes, from which values are read.

ghost use Rattle.std.specs.Prelude.{◌≡◌, ◌+◌, ◌≤◌, length, MatchResult, IfSome};
ghost use Rattle.file_formats.specs.Leb128.{uleb_at, sleb_at};
ghost use Rattle.byte_read.specs.View.{at_start, left_of};
ghost use Rattle.byte_read.specs.Septets.{PassesLeb};
ghost use Rattle.byte_read.specs.Reads.{ReadsNumber, TakesBytes, ReadsLeb, ReadsText, GivesValue, FallsShort, bytes_here, fits_u64, fits_i64};

use crate::fault::Fault;
use crate::leb::{Leb, sleb_of, uleb_of};
use crate::numbers::{u16_of, u24_of, u32_of, u64_of};
use crate::text::text_size;
use file_formats::Order;
use std::marker::Model;

/// A place in bytes. Contracts see it as its bytes, its order and its place.
#[derive(Drop)]
pub struct Cursor<'a> {
    bytes: &'a [u8],
    order: Order,
    at: usize,
}

impl<'a> Model for Cursor<'a> {
    ghost use Rattle.std.specs.Prelude.{◌≤◌, length};
    ghost use Rattle.byte_read.specs.View.{View};

    ghost Value = { View };

    ghost view = { λ c. record { bytes = c.bytes.now; order = c.order; place = c.at } };

    ghost invariant = { λ c. c.at ≤ length c.bytes.now };
}

impl<'a> Cursor<'a> {
    pub fn new(bytes: &'a [u8], order: Order) -> Self
        ensures { result ≡ at_start bytes.now order }
    {
        Cursor {
            bytes,
            order,
            at: 0,
        }
    }

    /// Gives the place, in bytes from the first one.
    pub fn at(&self) -> usize
        ensures value { result ≡ self.now.place }
        ensures within { result ≤ length self.now.bytes }
    {
        self.at
    }

    /// Gives the bytes from the place on.
    #[inline(always)]
    pub fn rest(&self) -> &'a [u8]
        ensures { result.now ≡ left_of self.now }
    {
        &self.bytes[self.at..]
    }

    /// Reads the next byte.
    #[inline(always)]
    pub fn read_u8(&mut self) -> Result<u8, Fault>
        ensures { ReadsNumber 1 self.old self.new result }
    {
        let [byte] = self.chunk::<1>()?;
        Ok(byte)
    }

    /// Reads the next two bytes as a number in the cursor's order.
    #[inline(always)]
    pub fn read_u16(&mut self) -> Result<u16, Fault>
        ensures { ReadsNumber 2 self.old self.new result }
    {
        let bytes = self.chunk::<2>()?;
        Ok(u16_of(bytes, self.order))
    }

    /// Reads the next three bytes as a number in the cursor's order.
    pub fn read_u24(&mut self) -> Result<u32, Fault>
        ensures { ReadsNumber 3 self.old self.new result }
    {
        let bytes = self.chunk::<3>()?;
        Ok(u24_of(bytes, self.order))
    }

    /// Reads the next four bytes as a number in the cursor's order.
    #[inline(always)]
    pub fn read_u32(&mut self) -> Result<u32, Fault>
        ensures { ReadsNumber 4 self.old self.new result }
    {
        let bytes = self.chunk::<4>()?;
        Ok(u32_of(bytes, self.order))
    }

    /// Reads the next eight bytes as a number in the cursor's order.
    #[inline(always)]
    pub fn read_u64(&mut self) -> Result<u64, Fault>
        ensures { ReadsNumber 8 self.old self.new result }
    {
        let bytes = self.chunk::<8>()?;
        Ok(u64_of(bytes, self.order))
    }

    /// Gives the next n bytes.
    pub fn take(&mut self, n: u64) -> Result<&'a [u8], Fault>
        ensures { TakesBytes n self.old self.new result }
    {
        let rest = self.rest();
        if (rest.len() as u64) < n {
            return Err(Fault::Short { at: self.at });
        }
        let n = n as usize;
        self.at += n;
        Ok(&rest[..n])
    }

    /// Reads an unsigned LEB128 number.
    #[inline(always)]
    pub fn uleb(&mut self) -> Result<u64, Fault>
        ensures { ReadsLeb fits_u64 uleb_at self.old self.new result }
    {
        let leb = uleb_of(self.rest());
        self.pass(leb)
    }

    /// Reads a signed LEB128 number.
    pub fn sleb(&mut self) -> Result<i64, Fault>
        ensures { ReadsLeb fits_i64 sleb_at self.old self.new result }
    {
        let leb = sleb_of(self.rest());
        self.pass(leb)
    }

    /// Gives the bytes before the next 0, and passes it.
    #[inline(always)]
    pub fn cstr(&mut self) -> Result<&'a [u8], Fault>
        ensures { ReadsText self.old self.new result }
    {
        let rest = self.rest();
        let length = text_size(rest).ok_or(Fault::Short { at: self.at })?;
        self.at += length + 1;
        Ok(&rest[..length])
    }

    /// Passes the next N bytes, and gives them.
    #[inline(always)]
    fn chunk<const N: usize>(&mut self) -> Result<[u8; N], Fault>
        ensures { MatchResult result
            (GivesValue bytes_here N self.old self.new)
            (FallsShort N self.old self.new) }
    {
        match self.rest().first_chunk::<N>() {
            Some(bytes) => {
                self.at += N;
                Ok(*bytes)
            }
            None => Err(Fault::Short { at: self.at }),
        }
    }

    /// Passes the number at the place, and gives it.
    #[inline(always)]
    fn pass<N: Drop>(&mut self, leb: Option<Leb<N>>) -> Result<N, Fault>
        requires { IfSome leb (λ number. self.old.place + number.size ≤ length self.old.bytes) }
        ensures { PassesLeb leb self.old self.new result }
    {
        let Leb { number, size } = leb.ok_or(Fault::Short { at: self.at })?;
        let number = number.ok_or(Fault::Wide { at: self.at })?;
        self.at += size;
        Ok(number)
    }
}
