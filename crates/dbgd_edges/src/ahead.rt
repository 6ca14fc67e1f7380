//! Bytes of a file that are read before they are asked for.

ghost use Rattle.std.specs.Prelude.{◌≡◌, IfSome, [], length};
ghost use Rattle.dbgd_edges.specs.Numbers.{ArePinnedAhead};

use std::alloc::Global;

/// A file of up to so many bytes is read whole.
pub const WHOLE: u64 = 32_768;

/// How many bytes of a longer file are read at a time, where fewer are asked.
pub const WINDOW: u64 = 8192;

/// How many of them lie in front of the place that is asked.
pub const BEFORE: u64 = 2048;

/// How many bytes of a longer file are read at a time, where what is asked goes on from what was read
/// last.
pub const ONWARD: u64 = 32_768;

/// Bytes of a file that were read before they were asked for, as they were at one moment.
#[derive(Drop)]
pub struct Ahead {
    alloc: Global,
    start: u64,
    bytes: Vec<u8>,
}

/// Where a file of this size is read from for what is asked at a place, and how many bytes of it.
fn window(at: u64, size: u64, goes_on: bool) -> (u64, u64) {
    if size <= WHOLE {
        return (0, size);
    }
    if goes_on {
        return (at, size.saturating_sub(at).min(ONWARD));
    }
    let start = at.saturating_sub(BEFORE);
    (start, size.saturating_sub(start).min(WINDOW))
}

impl Ahead {
    /// Nothing was read.
    pub fn new(alloc: Global) -> Ahead
        ensures start { result.start ≡ 0 }
        ensures none { result.bytes.items ≡ [] }
    {
        Ahead {
            alloc,
            start: 0,
            bytes: Vec::new(alloc),
        }
    }

    /// Where the bytes begin.
    pub fn start(&self) -> u64
        ensures { result ≡ self.now.start }
    {
        self.start
    }

    /// The room for them.
    pub fn room(&mut self) -> &mut [u8] {
        self.bytes.as_mut_slice()
    }

    /// Forgets them.
    pub fn forget(&mut self)
        ensures none { self.new.bytes.items ≡ [] }
        ensures start { self.new.start ≡ self.old.start }
    {
        self.bytes.clear();
    }

    /// The bytes at a place, where they are all held.
    fn held(&self, at: u64, len: usize) -> Option<&[u8]>
        ensures { IfSome result (λ part. length part.now ≡ len) }
    {
        let from = at.checked_sub(self.start)? as usize;
        self.bytes.get(from..)?.get(..len)
    }

    /// Gives the bytes at a place, where they are all held.
    pub fn give(&self, at: u64, room: &mut [u8]) -> bool
        ensures { length room.new ≡ length room.old }
    {
        match self.held(at, room.len()) {
            Some(part) => {
                room.copy_from_slice(part);
                true
            }
            None => false,
        }
    }

    /// Whether a place is one of those that were read, or the next one behind them.
    fn goes_on(&self, at: u64) -> bool {
        let read = self.bytes.len() as u64;
        read > 0 && at.checked_sub(self.start).is_some_and(|from| from <= read)
    }

    /// Makes room for what is read for so many bytes at a place of a file of this size. Gives whether all of
    /// them are read so.
    pub fn turn_to(&mut self, at: u64, len: usize, size: u64) -> bool
        ensures { ArePinnedAhead }
    {
        let (start, most) = window(at, size, self.goes_on(at));
        if at.saturating_add(len as u64) > start.saturating_add(most) {
            return false;
        }
        match vec![in self.alloc; 0; most as usize] {
            Ok(bytes) => {
                self.start = start;
                self.bytes = bytes;
                true
            }
            Err(_) => false,
        }
    }
}
