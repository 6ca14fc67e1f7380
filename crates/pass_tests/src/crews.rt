//! Slots that go out with tokens, and come back.

ghost use Rattle.std.specs.Prelude.{◌≤◌, vec_len};

use index_lock::{Logged, TurnLock};
use lock_crew::{rooms, seats_in, seats_out};
use std::alloc::Global;
use std::process::Abort;
use std::sync::Wait;

/// A list of numbers, which is its own log.
#[derive(Drop)]
struct Numbers {
    items: Vec<u64>,
    ghost few: { vec_len items ≤ 100000 },
}

impl Logged for Numbers {
    type Entry = u64;

    type Origin = ();

    ghost log = { λ numbers. numbers.items.items };

    ghost origin = { λ _. tt };

    ghost blank_origin = { tt };

    fn count(&self) -> u64 {
        self.items.len() as u64
    }
}

/// Sends the numbers out as places, has each token come back, and gives the places as they came back
/// and how many slots there were.
fn out_and_back<R: Abort + Wait>(rt: &R, alloc: Global, numbers: &[u64]) -> (Vec<u64>, u64) {
    let log = Numbers {
        items: Vec::new(alloc),
    };
    let Ok((lock, seat)) = TurnLock::make(alloc, log) else {
        panic!(rt; "memory for the lock")
    };
    let (slots, back) = rooms(alloc, numbers.len()).expect(rt, "memory");
    let places = Vec::from_slice(alloc, numbers).expect(rt, "memory");
    let (seat, slots) = seats_out(&lock, seat, places, slots);
    let count = slots.len() as u64;
    let (seat, places) = seats_in(&lock, seat, slots, back);
    let held = lock.enter(rt, seat);
    let _log = TurnLock::into_value(lock, held);
    (places, count)
}

#[test]
fn places_go_out_with_a_token_each_and_come_back_in_order(rt: HostRuntime) {
    let (places, count) = out_and_back(&rt, rt.alloc(), &[3, 1, 4, 1, 5]);
    assert!(rt; places.as_slice() == [3, 1, 4, 1, 5].as_slice());
    assert!(rt; count == 5);
}
