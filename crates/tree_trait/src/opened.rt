//! An open file with what was read of it.

ghost use Rattle.std.specs.Prelude.{◌≡◌, ℕ, ◌+◌, ◌<◌, ◌≤◌, ◌^◌, List, true, length};
ghost use Rattle.std.specs.Bool.{OnTrue, OnFalse};
ghost use Rattle.std.specs.String.{string_bytes};
ghost use Rattle.file_formats.specs.Numbers.{bytes_at};
ghost use Rattle.file_picture.specs.Picture.{IsAdded, IsPicture, IsRangeFree};
ghost use Rattle.tree_trait.specs.Opened.{HoldsPicture, opened_facts, opened_name, unread_picture};

use file_picture::Picture;
use row_types::{Stamp, Truth};
use std::alloc::Global;
use std::marker::{Model, PhantomData};

/// An open file with the bytes that were read of it. Its picture has the stamp's size, and is one of
/// a version of the path and the stamp in the world `W`. Contracts see it as a record of the four.
#[derive(Drop)]
pub struct Opened<W: Truth, F: Drop> {
    /// The path that was asked.
    pub path: String,
    /// The stamp that the file had as it was opened.
    pub stamp: Stamp,
    /// The open file.
    pub file: F,
    picture: Picture,
    of: PhantomData<W>,
}

impl<W: Truth, F: Drop> Model for Opened<W, F> {
    ghost use Rattle.std.specs.String.{string_bytes};
    ghost use Rattle.tree_trait.specs.Opened.{HoldsPicture, OpenedFacts, opened_facts};

    ghost Value = { OpenedFacts F };

    ghost view = { λ o. opened_facts (string_bytes o.path) o.stamp o.file o.picture };

    ghost invariant = { λ o. HoldsPicture W.version (string_bytes o.path) o.stamp o.picture };
}

impl<W: Truth, F: Drop> Opened<W, F> {
    /// A file that was opened, of which nothing was read.
    pub fn new(alloc: Global, path: String, stamp: Stamp, file: F) -> Opened<W, F>
        requires { (b : List ℕ) × W.version (string_bytes path) stamp b }
        ensures { result ≡ opened_facts (string_bytes path) stamp file (unread_picture stamp.size) }
    {
        let picture = Picture::new(alloc, stamp.size);
        Opened {
            path,
            stamp,
            file,
            picture,
            of: PhantomData,
        }
    }

    /// What is known of each open file.
    pub fn knows(&self)
        ensures holds { HoldsPicture W.version self.now.path self.now.stamp self.now.picture }
        ensures fits { self.now.stamp.size < 2 ^ 64 }
    {
        let _picture = &self.picture;
        let _size = self.stamp.size;
    }

    /// What was read of the file.
    pub fn picture(&self) -> &Picture
        ensures value { result.now ≡ self.now.picture }
        ensures holds { HoldsPicture W.version self.now.path self.now.stamp self.now.picture }
    {
        &self.picture
    }

    /// The open file, with what was read of it.
    pub fn into_file(self) -> (F, Picture)
        ensures file { result.0 ≡ self.file }
        ensures picture { result.1 ≡ self.picture }
        ensures holds { HoldsPicture W.version self.path self.stamp self.picture }
    {
        let Opened {
            path: _,
            stamp: _,
            file,
            picture,
            of: _,
        } = self;
        (file, picture)
    }

    /// Puts bytes that were read at their place, none of which was known there, if there is memory
    /// for it. Says whether.
    pub fn take(&mut self, at: u64, bytes: Vec<u8>) -> bool
        requires inside { at + length bytes.items ≤ self.old.stamp.size }
        requires free { IsRangeFree self.old.picture at (length bytes.items) }
        requires known { W.told ≡ true → (b : List ℕ) → W.version self.old.path self.old.stamp b
            → bytes_at b at (length bytes.items) ≡ bytes.items }
        ensures added { OnTrue result
            (IsAdded self.old.picture at bytes.items self.new.picture) }
        ensures same { OnFalse result (self.new ≡ self.old) }
        ensures name { opened_name self.new ≡ opened_name self.old }
        ensures file { self.new.file ≡ self.old.file }
    {
        put_in(&mut self.picture, at, bytes)
    }
}

/// Puts bytes into a picture, none of which was known there, if there is memory for it. Says
/// whether.
fn put_in(picture: &mut Picture, at: u64, bytes: Vec<u8>) -> bool
    requires inside { at + length bytes.items ≤ picture.old.size }
    requires free { IsRangeFree picture.old at (length bytes.items) }
    ensures added { OnTrue result (IsAdded picture.old at bytes.items picture.new) }
    ensures same { OnFalse result (picture.new ≡ picture.old) }
    ensures holds { IsPicture picture.new }
{
    let kept = picture.add(at, bytes).is_ok();
    // For its clause: it is a picture still.
    let _size = picture.size();
    kept
}
