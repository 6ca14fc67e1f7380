//! The lock's table: one word, one slot, and what each token knows. The word is twice the log's
//! length, and one more while a token has the lock. The slot is at home while none has.
use crate::logged::Logged;
use atomic_table::{Seat, Shared, Table, TableRule};
use std::alloc::Global;
use std::collections::LinkedList;
use std::marker::PhantomData;
use std::snapshot::Snapshot;

/// What is known of the value: its log, or a beginning of it, and its origin. No value of it is
/// made.
pub struct Known<E, O> {
    pub log: LinkedList<E>,
    pub origin: O,
}

/// What one token knows. No value of it is made.
pub enum View<E, O> {
    /// It was joined to another token and knows nothing any more.
    Spent,
    /// It has seen this.
    Rests(Known<E, O>),
    /// It keeps the first of what it and another token had seen, which are the other two.
    Joined(Known<E, O>, Known<E, O>, Known<E, O>),
    /// It has the lock, and took it at this.
    Holds(Known<E, O>),
    /// It took the value at this and gave the slot back empty: nobody takes the lock any more.
    Ends(Known<E, O>),
}

/// The rule of the lock's table, which each step on it keeps. No value of it is made.
pub struct LockRule<S> {
    value: PhantomData<S>,
}

impl<S: Logged> TableRule<Option<S>, View<S::Entry, S::Origin>, Snapshot<S>> for LockRule<S> {
    ghost use Rattle.index_lock.specs.Rule.{KeepsLock, known_of};
    ghost use Rattle.index_lock.specs.declared.view.View.TheVariants.{Rests};

    ghost holds = { λ _. KeepsLock S.log S.origin };

    ghost first = { λ key. Rests (known_of S.log S.origin key.value) };
}

/// The lock's table: a slot for the value, which is empty while the lock is held.
pub type LockTable<S> = Table<
    Option<S>,
    View<<S as Logged>::Entry, <S as Logged>::Origin>,
    Snapshot<S>,
    LockRule<S>,
    Global,
>;

/// What a thread goes to the table with: its own view, and the slot that it has taken.
pub type Token<S> = Seat<Option<S>, View<<S as Logged>::Entry, <S as Logged>::Origin>>;
