//! What no clause says: that memory suffices, that waking works, and that threads come to their end.

ghost use Rattle.std.specs.Prelude.{◌≡◌, ℕ, ◌<◌, ◌≤◌, ◌++◌, List, [], ◌∷◌, IsTrue, vec_len};
ghost use mathlib.Core.List.{IsPrefix};

use index_lock::{Logged, Seat, Split, TurnLock};
use std::alloc::Global;
use std::process::Abort;
use std::sync::Wait;
use std::thread::{Threads, join};

/// A list of numbers, which is its own log.
#[derive(Drop)]
struct Numbers {
    items: Vec<u64>,
    ghost few: { vec_len items ≤ 100000 },
}

impl Logged for Numbers {
    type Entry = u64;

    type Origin = ();

    ghost log = { λ numbers. numbers.items.items };

    ghost origin = { λ _. tt };

    ghost blank_origin = { tt };

    fn count(&self) -> u64 {
        self.items.len() as u64
    }
}

impl Numbers {
    ghost use Rattle.std.specs.Prelude.{◌≡◌, ◌++◌, [], ◌∷◌, MatchBool};

    /// Puts a number behind the others. Whether there was room.
    fn push(&mut self, number: u64) -> bool
        ensures { MatchBool result
            (self.new.items.items ≡ self.old.items.items ++ number ∷ [])
            (self.new.items.items ≡ self.old.items.items) }
    {
        self.items.len() < 100_000 && self.items.push(number).is_ok()
    }
}

/// Puts a number behind the others. Afterwards the token has seen it.
fn put<R: Wait>(
    rt: &R,
    lock: &TurnLock<Numbers>,
    seat: Seat<Numbers>,
    number: u64,
) -> (Seat<Numbers>, bool)
    requires { seat.lock ≡ lock.now }
    ensures lock { result.0.lock ≡ seat.lock }
    ensures seen { IsPrefix seat.seen result.0.seen }
    ensures put { IsTrue result.1
        → ((earlier : List ℕ) × (result.0.seen ≡ earlier ++ number ∷ [])) }
{
    let mut held = lock.enter(rt, seat);
    let done = held.value_mut().push(number);
    (lock.leave(held), done)
}

/// Puts the numbers of a range behind the others, one by one.
fn put_all<R: Wait>(
    rt: &R,
    lock: &TurnLock<Numbers>,
    seat: Seat<Numbers>,
    from: u64,
    to: u64,
) -> Seat<Numbers>
    requires { seat.lock ≡ lock.now }
    ensures { result.lock ≡ seat.lock }
{
    let mut seat = seat;
    for number in from..to {
        seat = put(rt, lock, seat, number).0;
    }
    seat
}

/// Enters a thousand times. Halfway the token is cut in two and made whole again.
fn put_thousand<R: Wait>(
    rt: &R,
    lock: &TurnLock<Numbers>,
    seat: Seat<Numbers>,
    from: u64,
) -> Seat<Numbers>
    requires lock { seat.lock ≡ lock.now }
    requires small { from < 1000000 }
    ensures { result.lock ≡ seat.lock }
{
    let seat = put_all(rt, lock, seat, from, from + 500);
    let seat = match lock.split(seat) {
        Split::Two(first, second) => lock.join(first, second),
        Split::OutOfMemory(seat) => seat,
    };
    put_all(rt, lock, seat, from + 500, from + 1000)
}

/// Two threads enter a thousand times each.
fn put_by_two<R: Threads + Wait + Sync>(
    rt: &R,
    lock: &TurnLock<Numbers>,
    first: Seat<Numbers>,
    second: Seat<Numbers>,
    from: u64,
) -> Seat<Numbers>
    requires first { first.lock ≡ lock.now }
    requires second { second.lock ≡ lock.now }
    requires small { from < 100000 }
    ensures { result.lock ≡ lock.now }
{
    let (first, second) = join(
        rt,
        || put_thousand(rt, lock, first, from),
        || put_thousand(rt, lock, second, from + 1000),
    );
    lock.join(first, second)
}

/// Takes the lock of any value, and leaves it as it was.
fn pass<S: Logged, R: Wait>(rt: &R, lock: &TurnLock<S>, seat: Seat<S>) -> Seat<S>
    requires { seat.lock ≡ lock.now }
    ensures lock { result.lock ≡ lock.now }
    ensures seen { IsPrefix seat.seen result.seen }
    ensures origin { result.origin ≡ seat.origin }
{
    lock.leave(lock.enter(rt, seat))
}

/// Two threads share a lock over any value that may cross threads, with a token each.
fn pass_by_two<S: Logged + Send, R: Threads + Wait + Sync>(
    rt: &R,
    lock: &TurnLock<S>,
    first: Seat<S>,
    second: Seat<S>,
) -> Seat<S>
    requires first { first.lock ≡ lock.now }
    requires second { second.lock ≡ lock.now }
    ensures { result.lock ≡ lock.now }
{
    let (first, second) = join(rt, || pass(rt, lock, first), || pass(rt, lock, second));
    lock.join(first, second)
}

/// The numbers of one thread stand there once each, in their order.
fn has_in_order(items: &[u64], from: u64, to: u64) -> bool {
    let own = items.iter().copied().filter(|x| from <= *x && *x < to);
    own.eq(from..to)
}

/// Two tokens of one, with what each has seen.
fn cut(lock: &TurnLock<Numbers>, seat: Seat<Numbers>) -> (Seat<Numbers>, Seat<Numbers>)
    requires { seat.lock ≡ lock.now }
    ensures { (result.0 ≡ seat) × (result.1 ≡ seat) }
{
    match lock.split(seat) {
        Split::Two(first, second) => (first, second),
        Split::OutOfMemory(_) => unreachable!(),
    }
}

/// No numbers behind a lock, and its token.
fn numbers_behind_a_lock(rt: &impl Abort, alloc: Global) -> (TurnLock<Numbers>, Seat<Numbers>)
    ensures { result.1.lock ≡ result.0 }
{
    let numbers = Numbers {
        items: Vec::new(alloc),
    };
    TurnLock::make(alloc, numbers)
        .ok()
        .expect(rt, "memory for the lock")
}

/// The numbers behind the lock, which ends.
fn last_numbers<R: Wait>(rt: &R, lock: TurnLock<Numbers>, seat: Seat<Numbers>) -> Numbers
    requires { seat.lock ≡ lock }
{
    let held = lock.enter(rt, seat);
    TurnLock::into_value(lock, held)
}

/// What one token puts is found by another, and stands behind the lock in the end.
fn pass_five<R: Threads + Wait + Abort + Sync>(
    rt: &R,
    lock: &TurnLock<Numbers>,
    seat: Seat<Numbers>,
) -> Seat<Numbers>
    requires { seat.lock ≡ lock.now }
    ensures { result.lock ≡ lock.now }
{
    let (first, second) = cut(lock, seat);
    let (first, done) = put(rt, lock, first, 5);
    assert!(rt; done);
    let held = lock.enter(rt, second);
    assert!(rt; held.value().items.as_slice() == [5].as_slice());
    let second = lock.leave(held);
    pass_by_two(rt, lock, first, second)
}

#[test]
fn numbers_pass_from_token_to_token(rt: HostRuntime) {
    let (lock, seat) = numbers_behind_a_lock(&rt, rt.alloc());
    let seat = pass_five(&rt, &lock, seat);
    let numbers = last_numbers(&rt, lock, seat);
    assert!(rt; numbers.items.as_slice() == [5].as_slice());
}

#[test]
fn two_threads_put_each_number_once_and_in_order(rt: HostRuntime) {
    let (lock, seat) = numbers_behind_a_lock(&rt, rt.alloc());
    let (first, second) = cut(&lock, seat);
    let seat = put_by_two(&rt, &lock, first, second, 0);
    let numbers = last_numbers(&rt, lock, seat);
    assert!(rt; numbers.items.len() == 2000);
    for from in [0, 1000] {
        assert!(rt;
            has_in_order(numbers.items.as_slice(), from, from + 1000),
            "from {from}"
        );
    }
}

#[test]
fn four_threads_put_each_number_once_and_in_order(rt: HostRuntime) {
    let (lock, seat) = numbers_behind_a_lock(&rt, rt.alloc());
    let (left, right) = cut(&lock, seat);
    let (first, second) = cut(&lock, left);
    let (third, fourth) = cut(&lock, right);
    let (left, right) = join(
        &rt,
        || put_by_two(&rt, &lock, first, second, 0),
        || put_by_two(&rt, &lock, third, fourth, 2000),
    );
    let seat = lock.join(left, right);
    let numbers = last_numbers(&rt, lock, seat);
    assert!(rt; numbers.items.len() == 4000);
    for from in [0, 1000, 2000, 3000] {
        assert!(rt;
            has_in_order(numbers.items.as_slice(), from, from + 1000),
            "from {from}"
        );
    }
}
