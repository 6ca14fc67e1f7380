//! A gate that holds a point: alone, and with two threads.

use std::alloc::Global;
use std::process::Abort;
use std::thread::join;
use tree_trait::{Gate, Hold, NoGate, Point, TurnGate};

/// Holds the load of `/a` until `/b` is published, for so many turns.
fn load_after_publish(rt: &impl Abort, alloc: Global, turns: u64) -> TurnGate {
    let first = String::from_str(alloc, "/a").expect(rt, "memory");
    let second = String::from_str(alloc, "/b").expect(rt, "memory");
    TurnGate::new(Hold::Loading(first), Hold::Published(second), turns)
}

/// Points that neither hold nor end a hold.
static OTHERS: [Point<'static>; 6] = [
    Point::Loading("/b"),
    Point::Loading("/aa"),
    Point::Published("/a"),
    Point::Published("/"),
    Point::Asking(0),
    Point::Answered(0),
];

#[test]
fn a_point_is_held_until_its_turns_run_out(rt: HostRuntime) {
    let gate = load_after_publish(&rt, rt.alloc(), 10);
    for point in &OTHERS {
        gate.at(&rt, point);
    }
    gate.at(&rt, &Point::Loading("/a"));
    gate.at(&rt, &Point::Published("/b"));
    assert!(rt; !gate.met());
}

#[test]
fn a_point_that_comes_last_is_not_held(rt: HostRuntime) {
    let gate = load_after_publish(&rt, rt.alloc(), 0);
    gate.at(&rt, &Point::Published("/b"));
    assert!(rt; !gate.met());
    gate.at(&rt, &Point::Loading("/a"));
    assert!(rt; gate.met());
    NoGate.at(&rt, &Point::Loading("/a"));
}

#[test]
fn the_second_thread_comes_at_the_first_point_and_passes(rt: HostRuntime) {
    let gate = TurnGate::new(Hold::Asking(1), Hold::Answered(2), 0);
    gate.at(&rt, &Point::Answered(2));
    gate.at(&rt, &Point::Asking(1));
    gate.at(&rt, &Point::Asking(1));
    assert!(rt; gate.met());
}

#[test]
fn one_thread_is_held_until_another_has_come(rt: HostRuntime) {
    let gate = load_after_publish(&rt, rt.alloc(), 1_000_000);
    join(
        &rt,
        || gate.at(&rt, &Point::Loading("/a")),
        || gate.at(&rt, &Point::Published("/b")),
    );
    assert!(rt; gate.met());
}
