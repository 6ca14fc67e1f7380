//! The lock.
ghost use Rattle.std.specs.Prelude.{◌≡◌, [], ◌∷◌, IfOk, IfErr, Some};
ghost use mathlib.Core.List.{IsPrefix};
ghost use Rattle.index_lock.specs.declared.view.Known.{Known};
ghost use Rattle.index_lock.specs.declared.view.View.TheVariants.{Rests};
ghost use Rattle.index_lock.specs.Rule.{TakesLock};
ghost use Rattle.index_lock.specs.Splits.{SplitsToken};
ghost use Rattle.index_lock.specs.Tokens.{longer};

use crate::held::Held;
use crate::logged::Logged;
use crate::plays::{Acquire, Copies, End, KeepsLonger, Release, Settle};
use crate::seat::{Seat, Split};
use crate::view::{LockTable, Token};
use atomic_table::{Refused, Table};
use std::alloc::{AllocFailed, Global};
use std::marker::Model;
use std::snapshot::Snapshot;
use std::sync::Wait;

/// A lock over one value. Contracts see it as which lock it is.
#[derive(Drop)]
pub struct TurnLock<S: Logged> {
    table: LockTable<S>,
}

impl<S: Logged> Model for TurnLock<S> {
    ghost use Rattle.std.specs.Prelude.{◌≡◌};
    ghost use Rattle.atomic_table.specs.Seated.{TableId};

    ghost Value = { TableId };

    ghost view = { λ lock. lock.table.shared.table_id };

    ghost invariant = { λ lock.
        (lock.table.shared.table_id.words ≡ 1) × (lock.table.shared.table_id.slots ≡ 1) };
}

// The value that is alone in a row.
fn only<S>(mut row: Vec<Option<S>>) -> S
    requires { (value : S) × (row.items ≡ Some value ∷ []) }
    ensures { row.items ≡ Some result ∷ [] }
{
    let Some(Some(value)) = row.pop() else {
        unreachable!()
    };
    row.destroy_empty();
    value
}

// A row with this value alone, or the value where there was no memory.
fn row_of<S>(alloc: Global, value: S) -> Result<Vec<Option<S>>, S>
    ensures ok { IfOk result (λ row. row.items ≡ Some value ∷ []) }
    ensures err { IfErr result (λ back. back ≡ value) }
{
    let mut row = Vec::new(alloc);
    match row.push(Some(value)) {
        Ok(()) => Ok(row),
        Err(failed) => {
            let AllocFailed { value } = failed;
            row.destroy_empty();
            let Some(value) = value else { unreachable!() };
            Err(value)
        }
    }
}

impl<S: Logged> TurnLock<S> {
    /// Puts the value behind a lock of its own, with a first token.
    pub fn make(alloc: Global, state: S) -> Result<(TurnLock<S>, Seat<S>), S>
        ensures lock { IfOk result (λ made. made.1.lock ≡ made.0) }
        ensures seen { IfOk result (λ made.
            (made.1.seen ≡ S.log state) × (made.1.origin ≡ S.origin state)) }
        ensures memory { IfErr result (λ back. back ≡ state) }
    {
        let word = 2 * state.count();
        let about = Snapshot::of(&state);
        let row = row_of(alloc, state)?;
        match Table::new(alloc, &[word], row, &about) {
            Ok((table, token)) => Ok((TurnLock { table }, Seat::of(token))),
            Err(refused) => {
                let Refused { slots } = refused;
                Err(only(slots))
            }
        }
    }

    /// Waits until the lock is free, and takes it.
    pub fn enter<R: Wait>(&self, rt: &R, seat: Seat<S>) -> Held<S>
        requires { seat.lock ≡ self.now }
        ensures lock { result.lock ≡ seat.lock }
        ensures begins { IsPrefix seat.seen (S.log result.value) }
        ensures origin { S.origin result.value ≡ seat.origin }
        ensures at_enter { (result.seen ≡ S.log result.value)
            × (result.origin ≡ S.origin result.value) }
        ensures may_leave { IsPrefix result.seen (S.log result.value) }
    {
        let mut token = seat.into_token();
        self.acquire(rt, &mut token);
        let Some(value) = self.table.shared.exchange(&mut token, 0, None) else {
            unreachable!()
        };
        Held::of(value, token)
    }

    // A park may end for no reason, so the word is loaded again each time.
    fn acquire<R: Wait>(&self, rt: &R, token: &mut Token<S>)
        requires lock { token.old.table_id ≡ self.now }
        requires rests { (known : Known S.Entry S.Origin) × (token.old.me ≡ (Rests known, [])) }
        ensures { TakesLock S.log S.origin token.old token.new }
    {
        let shared = &self.table.shared;
        for _ in rt.forever() {
            let word = shared.peek(0);
            if word % 2 == 1 {
                shared.park(rt, 0, (word % (1 << 32)) as u32);
            } else if shared.compare_exchange::<Acquire>(token, 0, word, word + 1) == word {
                return;
            }
        }
    }

    /// Gives the value back, and wakes one that waits.
    pub fn leave(&self, held: Held<S>) -> Seat<S>
        requires lock { held.lock ≡ self.now }
        requires log { IsPrefix held.seen (S.log held.value) }
        requires origin { S.origin held.value ≡ held.origin }
        ensures lock { result.lock ≡ held.lock }
        ensures seen { result.seen ≡ S.log held.value }
        ensures origin { result.origin ≡ held.origin }
    {
        let (value, mut token) = held.into_parts();
        let shared = &self.table.shared;
        let length = value.count();
        let empty = shared.exchange(&mut token, 0, Some(value));
        let None = empty else { unreachable!() };
        shared.store::<Release>(&mut token, 0, 2 * length);
        shared.wake_one(0);
        Seat::of(token)
    }

    /// Makes a second token, for another thread, that has seen as much.
    pub fn split(&self, seat: Seat<S>) -> Split<S>
        requires { seat.lock ≡ self.now }
        ensures { SplitsToken seat result }
    {
        let mut token = seat.into_token();
        let other = self.table.shared.split_seat::<Copies>(&mut token);
        Split::Two(Seat::of(token), Seat::of(other))
    }

    /// Makes one token of two. It keeps the longer log.
    pub fn join(&self, first: Seat<S>, second: Seat<S>) -> Seat<S>
        requires first { first.lock ≡ self.now }
        requires second { second.lock ≡ self.now }
        ensures lock { result.lock ≡ first.lock }
        ensures longer { result.seen ≡ longer first.seen second.seen }
        ensures first { IsPrefix first.seen result.seen }
        ensures second { IsPrefix second.seen result.seen }
        ensures origin { (result.origin ≡ first.origin) × (result.origin ≡ second.origin) }
    {
        let mut token = first.into_token();
        let shared = &self.table.shared;
        shared.join_seat::<KeepsLonger>(&mut token, second.into_token());
        shared.load::<Settle>(&mut token, 0);
        Seat::of(token)
    }

    /// Ends the lock, for who has it.
    pub fn into_value(lock: TurnLock<S>, held: Held<S>) -> S
        requires { held.lock ≡ lock }
        ensures { result ≡ held.value }
    {
        let TurnLock { table } = lock;
        let (value, mut token) = held.into_parts();
        table.shared.load::<End>(&mut token, 0);
        let mut closed = table.close_with(token);
        let empty = closed.take(0);
        let None = empty else { unreachable!() };
        closed.free();
        value
    }
}
