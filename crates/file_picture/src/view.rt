//! What is there of a file: all of its bytes, or those of a picture.

ghost use Rattle.std.specs.Prelude.{◌≡◌, length, MatchOption, MatchResult};
ghost use Rattle.file_formats.specs.Numbers.{bytes_at};
ghost use Rattle.file_picture.specs.Agrees.{filled_with_zeros};
ghost use Rattle.file_picture.specs.Picture.{IsCovered, IsPicture};
ghost use Rattle.file_picture.specs.Whole.{whole};

use crate::picture::Picture;
use crate::piece::part;
use std::marker::Model;

/// A range of a file that is asked for and isn't there.
#[derive(Clone, Copy, Debug, PartialEq, Eq)]
pub struct Need {
    /// Where it begins, in bytes from the file's start.
    pub at: u64,
    /// How many bytes it has.
    pub len: u64,
}

/// What a view lends from.
#[derive(Drop)]
enum Lent<'a> {
    /// All bytes of a file.
    Whole(&'a [u8]),
    /// Those that are known.
    Part(&'a Picture),
}

/// All bytes of a file, or those of a picture, for readers that take either. Contracts see it as
/// the picture.
#[derive(Drop)]
pub struct View<'a> {
    lent: Lent<'a>,
}

impl<'a> Model for View<'a> {
    ghost use Rattle.file_picture.specs.Picture.{PictureFacts, IsPicture};
    ghost use Rattle.file_picture.specs.Lent.{seen_of};

    ghost Value = { PictureFacts };

    ghost view = { λ v. seen_of v.lent };

    ghost invariant = { λ v. IsPicture (seen_of v.lent) };
}

impl<'a> View<'a> {
    /// The view of a whole file.
    pub fn whole(bytes: &'a [u8]) -> View<'a>
        ensures { result ≡ whole bytes.now }
    {
        View {
            lent: Lent::Whole(bytes),
        }
    }

    /// The view of a picture.
    pub fn part(picture: &'a Picture) -> View<'a>
        ensures value { result ≡ picture.now }
        ensures holds { IsPicture picture.now }
    {
        // For its clause: what is known of each picture.
        let _size = picture.size();
        View {
            lent: Lent::Part(picture),
        }
    }

    /// The file's size, in bytes.
    pub fn size(&self) -> u64
        ensures value { result ≡ length (filled_with_zeros self.now) }
        ensures holds { IsPicture self.now }
    {
        match &self.lent {
            Lent::Whole(bytes) => bytes.len() as u64,
            Lent::Part(picture) => picture.size(),
        }
    }

    /// The bytes of a range, where all of them are there.
    pub fn slice(&self, at: u64, len: u64) -> Result<&'a [u8], Need>
        ensures { MatchResult result
            (λ bytes. IsCovered self.now at len × (bytes.now ≡ bytes_at (filled_with_zeros self.now) at len))
            (λ need. (IsCovered self.now at len → ⊥) × (need ≡ record { at = at; len = len })) }
    {
        match self.lent.slice(at, len) {
            Some(bytes) => Ok(bytes),
            None => Err(Need { at, len }),
        }
    }
}

impl<'a> Lent<'a> {
    ghost use Rattle.file_picture.specs.Lent.{seen_of};

    /// The bytes of a range, where all of them are there.
    fn slice(&self, at: u64, len: u64) -> Option<&'a [u8]>
        requires { IsPicture (seen_of self.now) }
        ensures { MatchOption result (IsCovered (seen_of self.now) at len → ⊥) (λ bytes.
            IsCovered (seen_of self.now) at len
            × (bytes.now ≡ bytes_at (filled_with_zeros (seen_of self.now)) at len)) }
    {
        match self {
            Lent::Whole(bytes) => part(bytes, at, len),
            Lent::Part(picture) => picture.slice(at, len),
        }
    }
}
