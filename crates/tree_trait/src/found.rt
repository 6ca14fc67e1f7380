//! A file that was read.

ghost use Rattle.std.specs.Prelude.{◌≡◌, ℕ, ◌+◌, ◌≤◌, List, true, length, vec_len, IfOk};
ghost use Rattle.std.specs.String.{string_bytes};
ghost use Rattle.file_formats.specs.Numbers.{bytes_at};
ghost use Rattle.tree_trait.specs.Found.{IsFound, found_facts};

use row_types::{Stamp, Truth};
use std::alloc::{AllocError, Global};
use std::marker::{Model, PhantomData};

/// A file's path, stamp and bytes, which are a version of the world `W`, and as many as the stamp
/// says. Contracts see it as a record of the three.
#[derive(Drop)]
pub struct Found<W: Truth> {
    /// The path that was asked.
    pub path: String,
    /// The stamp that the file had.
    pub stamp: Stamp,
    /// All its bytes.
    pub bytes: Vec<u8>,
    of: PhantomData<W>,
}

impl<W: Truth> Model for Found<W> {
    ghost use Rattle.std.specs.String.{string_bytes};
    ghost use Rattle.tree_trait.specs.Found.{FoundFacts, IsFound, found_facts};

    ghost Value = { FoundFacts };

    ghost view = { λ f. found_facts (string_bytes f.path) f.stamp f.bytes.items };

    ghost invariant = { λ f.
        IsFound W.version (found_facts (string_bytes f.path) f.stamp f.bytes.items) };
}

impl<W: Truth> Found<W> {
    /// The file of this path and stamp with these bytes.
    pub fn new(path: String, stamp: Stamp, bytes: Vec<u8>) -> Found<W>
        requires known { W.version (string_bytes path) stamp bytes.items }
        requires sized { stamp.size ≡ vec_len bytes }
        ensures { result ≡ found_facts (string_bytes path) stamp bytes.items }
    {
        Found {
            path,
            stamp,
            bytes,
            of: PhantomData,
        }
    }

    /// What is known of each file that was read.
    pub fn is_version(&self)
        ensures { IsFound W.version self.now }
    {
        let _bytes = &self.bytes;
    }

    /// A copy.
    pub fn copy(&self, alloc: Global) -> Result<Found<W>, AllocError>
        ensures { IfOk result (λ found. found ≡ self.now) }
    {
        Ok(Found {
            path: String::from_str(alloc, self.path.as_str())?,
            stamp: self.stamp,
            bytes: Vec::from_slice(alloc, self.bytes.as_slice())?,
            of: PhantomData,
        })
    }

    /// Copies its bytes from a place on into all of a room.
    fn own_into(&self, at: u64, room: &mut [u8])
        requires { at + length room.old ≤ self.now.stamp.size }
        ensures len { length room.new ≡ length room.old }
        ensures own { room.new ≡ bytes_at self.now.bytes at (length room.old) }
    {
        // For its clause: there are as many bytes as the stamp says.
        self.is_version();
        copy_part(self.bytes.as_slice(), at, room);
    }

    /// Copies its bytes from a place on into all of a room. In a told world no other file of its
    /// path and stamp has others there.
    pub fn read_into(&self, at: u64, room: &mut [u8])
        requires { at + length room.old ≤ self.now.stamp.size }
        ensures len { length room.new ≡ length room.old }
        ensures own { room.new ≡ bytes_at self.now.bytes at (length room.old) }
        ensures bytes { W.told ≡ true → (b : List ℕ)
            → W.version self.now.path self.now.stamp b
            → room.new ≡ bytes_at b at (length room.old) }
    {
        // For its clause: these are the bytes of the file's version.
        self.is_version();
        self.own_into(at, room);
    }
}

/// Copies bytes from a place on into all of a room.
pub fn copy_part(bytes: &[u8], at: u64, room: &mut [u8])
    requires { at + length room.old ≤ length bytes.now }
    ensures len { length room.new ≡ length room.old }
    ensures own { room.new ≡ bytes_at bytes.now at (length room.old) }
{
    let end = at + room.len() as u64;
    room.copy_from_slice(&bytes[at as usize..end as usize]);
}
