//! Files of a tree in memory that have other bytes from a read on.

ghost use Rattle.std.specs.Prelude.{◌≡◌, ◌+◌, ◌≤◌, ◌∷◌, [], ℕ, List, true, false, length, OnErr, OnOk};
ghost use Rattle.std.specs.List.{find};
ghost use Rattle.std.specs.Option.{option_copied};
ghost use Rattle.file_formats.specs.Numbers.{bytes_at};
ghost use Rattle.tree_trait.specs.Swaps.{bytes_seen, has_swapped, no_swaps, read_once, swap_of, swapped};

use crate::found::{Found, copy_part};
use row_types::Truth;
use std::alloc::{AllocError, Global};
use std::marker::{Model, PhantomData};

/// Other bytes of the file of a path, from the read of a number on. Contracts see it as a record of
/// the three.
#[derive(Drop)]
struct Swap {
    /// The number of the first read that they stand for, counted from 0 over all open files.
    call: u64,
    path: String,
    bytes: Vec<u8>,
}

impl Model for Swap {
    ghost use Rattle.std.specs.String.{string_bytes};
    ghost use Rattle.tree_trait.specs.Swaps.{SwapFacts};

    ghost Value = { SwapFacts };

    ghost view = { λ s. record { call = s.call; path = string_bytes s.path; bytes = s.bytes.items } };
}

impl Swap {
    /// Whether they stand for the bytes of a file at the read of a number.
    fn has_swapped<W: Truth>(&self, reads: u64, file: &Found<W>) -> bool
        ensures { result ≡ has_swapped reads file.now self.now }
    {
        self.call <= reads
            && self.path.as_str() == file.path.as_str()
            && self.bytes.len() == file.bytes.len()
    }

    /// Copies the bytes from a place on into all of a room.
    fn copy_into(&self, at: u64, room: &mut [u8])
        requires { at + length room.old ≤ length self.now.bytes }
        ensures len { length room.new ≡ length room.old }
        ensures own { room.new ≡ bytes_at self.now.bytes at (length room.old) }
    {
        copy_part(self.bytes.as_slice(), at, room);
    }
}

/// Other bytes of files, the newest first, and how often an open file was read. In a told world
/// there are none. Contracts see it as a record of the two.
#[derive(Drop)]
pub struct Swaps<W: Truth> {
    reads: u64,
    list: Vec<Swap>,
    of: PhantomData<W>,
}

impl<W: Truth> Model for Swaps<W> {
    ghost use Rattle.tree_trait.specs.Swaps.{HasNoneTold, SwapsFacts};

    ghost Value = { SwapsFacts };

    ghost view = { λ s. record { reads = s.reads; list = s.list.items } };

    ghost invariant = { λ s. HasNoneTold W.told s.list.items };
}

impl<W: Truth> Swaps<W> {
    /// None, before the first read.
    pub fn new(alloc: Global) -> Swaps<W>
        ensures { result ≡ no_swaps }
    {
        Swaps {
            reads: 0,
            list: Vec::new(alloc),
            of: PhantomData,
        }
    }

    /// Lets these bytes stand for those of the files of a path that have as many, from the read of a
    /// number on.
    pub fn add(&mut self, call: u64, path: &str, bytes: Vec<u8>) -> Result<(), AllocError>
        requires { W.told ≡ false }
        ensures ok { OnOk result (self.new ≡ swapped self.old call path.now bytes.items) }
        ensures err { OnErr result (self.new ≡ self.old) }
    {
        put_first(&mut self.list, call, path, bytes)
    }

    /// Counts a read.
    pub fn count(&mut self)
        ensures { self.new ≡ read_once self.old }
    {
        self.reads = self.reads.saturating_add(1);
    }

    /// Copies what a file reads as, from a place on, into all of a room. In a told world no other file
    /// of its path and stamp has others there.
    pub fn read_into(&self, file: &Found<W>, at: u64, room: &mut [u8])
        requires { at + length room.old ≤ file.now.stamp.size }
        ensures len { length room.new ≡ length room.old }
        ensures seen { room.new ≡ bytes_at (bytes_seen self.now file.now) at (length room.old) }
        ensures bytes { W.told ≡ true → (b : List ℕ)
            → W.version file.now.path file.now.stamp b
            → room.new ≡ bytes_at b at (length room.old) }
    {
        read_newest(self.list.as_slice(), self.reads, file, at, room);
    }
}

/// Puts one more in front.
fn put_first(list: &mut Vec<Swap>, call: u64, path: &str, bytes: Vec<u8>) -> Result<(), AllocError>
    ensures ok { OnOk result
        (list.new.items ≡ swap_of call path.now bytes.items ∷ list.old.items) }
    ensures err { OnErr result (list.new.items ≡ list.old.items) }
{
    let own = String::from_str(*list.allocator(), path)?;
    let swap = Swap {
        call,
        path: own,
        bytes,
    };
    list.insert(0, swap)?;
    Ok(())
}

/// The newest that stands for the bytes of a file at the read of a number.
fn newest<'a, W: Truth>(swaps: &'a [Swap], reads: u64, file: &Found<W>) -> Option<&'a Swap>
    ensures { option_copied result ≡ find (has_swapped reads file.now) swaps.now }
{
    swaps.iter().find(|swap| swap.has_swapped(reads, file))
}

/// Copies what a file reads as at the read of a number, from a place on, into all of a room.
fn read_newest<W: Truth>(swaps: &[Swap], reads: u64, file: &Found<W>, at: u64, room: &mut [u8])
    requires { at + length room.old ≤ file.now.stamp.size }
    ensures len { length room.new ≡ length room.old }
    ensures seen { room.new ≡ bytes_at
        (bytes_seen (record { reads = reads; list = swaps.now }) file.now) at (length room.old) }
    ensures bytes { swaps.now ≡ [] → W.told ≡ true → (b : List ℕ)
        → W.version file.now.path file.now.stamp b
        → room.new ≡ bytes_at b at (length room.old) }
{
    // For its clause: the file has as many bytes as its stamp says.
    file.is_version();
    match newest(swaps, reads, file) {
        Some(swap) => swap.copy_into(at, room),
        None => file.read_into(at, room),
    }
}
