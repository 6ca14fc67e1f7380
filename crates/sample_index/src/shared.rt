//! Indexes behind locks, and their tokens.

ghost use Rattle.std.specs.Prelude.{◌≡◌, None, IfSome};

use crate::index::{Index, empty_index};
use index_lock::{Seat, Split, TurnLock};
use index_state::Begun;
use path_scope::AllPaths;
use row_types::Truth;
use scan_queue::Listing;
use std::alloc::Global;
use std::sync::Wait;

/// A lock over an index on a store in memory.
pub type Lock<W> = TurnLock<Index<W>>;

/// A token of such a lock.
pub type Token<W> = Seat<Index<W>>;

/// An index behind a lock, with a token of it.
#[derive(Drop)]
pub struct Shared<W: Truth + Send> {
    /// The lock.
    pub lock: Lock<W>,
    /// The token.
    pub seat: Token<W>,
    pub ghost of_lock: { seat.lock ≡ lock },
}

/// An index behind a lock, with a token of it that skips no name.
#[derive(Drop)]
pub struct Unspared<W: Truth + Send> {
    /// The lock.
    pub lock: Lock<W>,
    /// The token.
    pub seat: Token<W>,
    pub ghost of_lock: { seat.lock ≡ lock },
    pub ghost spared: { seat.origin.sparing ≡ None },
}

/// Puts the index behind a lock.
pub fn put_behind<W: Truth + Send>(alloc: Global, index: Index<W>) -> Option<Shared<W>> {
    match TurnLock::make(alloc, index) {
        Ok((lock, seat)) => Some(Shared { lock, seat }),
        Err(_) => None,
    }
}

/// The index without rows behind a lock, on a store that stops at the call of this number. A pass
/// over nothing is begun first, so that no name is skipped.
pub fn empty_shared<W: Truth + Send>(alloc: Global, stop_at: Option<u64>) -> Option<Unspared<W>> {
    let mut index: Index<W> = empty_index(alloc, stop_at)?;
    let none = Listing::new(Vec::new(alloc)).ok()?;
    let Begun::Begun(_) = index.begin(alloc, none, Vec::new(alloc), &mut AllPaths) else {
        return None;
    };
    match TurnLock::make(alloc, index) {
        Ok((lock, seat)) => Some(Unspared { lock, seat }),
        Err(_) => None,
    }
}

/// Takes the index out of its lock.
pub fn taken<W: Truth + Send>(rt: &impl Wait, shared: Shared<W>) -> Index<W> {
    let Shared { lock, seat } = shared;
    let held = lock.enter(rt, seat);
    TurnLock::into_value(lock, held)
}

/// Two tokens of one.
pub fn cut<W: Truth + Send>(lock: &Lock<W>, token: Token<W>) -> Option<(Token<W>, Token<W>)>
    requires { token.lock ≡ lock.now }
    ensures locks { IfSome result (λ two. (two.0.lock ≡ lock.now) × (two.1.lock ≡ lock.now)) }
    ensures origins { IfSome result (λ two. (two.0.origin ≡ token.origin)
        × (two.1.origin ≡ token.origin)) }
{
    match lock.split(token) {
        Split::Two(first, second) => Some((first, second)),
        Split::OutOfMemory(_) => None,
    }
}
