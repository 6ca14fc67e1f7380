//! How long the real clock waits, which no clause says, and what one in memory tells.

use crate::standing::Napping;
use dbgd_edges::RealClock;
use std::process::Abort;
use std::sync::Wait;
use std::sync::atomic::{AtomicU64, Ordering};
use std::time::{Duration, Instant};
use tree_trait::{Clock, MemClock, Wake};

#[test]
fn a_second_is_waited_for(rt: HostRuntime) {
    let start = Instant::now(&rt).expect(&rt, "the time");
    let mut clock = RealClock::new(rt);
    assert!(rt; clock.wait(&rt, 1) == Wake::Again, "an answer");
    let time = start.elapsed(&rt).expect(&rt, "the time");
    assert!(rt; time >= Duration::from_secs(1), "a second");
}

/// Waits two seconds by a clock.
fn wait_by<Rt: Wait + Sync + Abort>(rt: &Rt, napping: &Napping) {
    let mut clock = RealClock::new(napping);
    assert!(rt; clock.wait(rt, 2) == Wake::Again, "an answer");
}

#[test]
fn a_sleep_that_ends_early_is_gone_on_with(rt: HostRuntime) {
    for most in [300, 1000, 2000, 5000] {
        let napping = Napping::new(most);
        wait_by(&rt, &napping);
        assert!(rt; napping.slept() == 2000, "sleeps of {most}");
    }
}

#[test]
fn where_the_time_is_not_told_all_of_it_is_slept(rt: HostRuntime) {
    let napping = Napping {
        slept: AtomicU64::new(0),
        most: 5000,
        broken: true,
    };
    wait_by(&rt, &napping);
    assert!(rt; napping.slept.load(Ordering::SeqCst) == 2000, "two seconds");
}

/// The waits of a clock in memory that answers Again twice.
static WAITS: [(u64, Wake); 4] = [
    (300, Wake::Again),
    (1, Wake::Again),
    (0, Wake::Stop),
    (7, Wake::Stop),
];

#[test]
fn a_clock_in_memory_answers_again_so_often(rt: HostRuntime) {
    let mut clock = MemClock::new(rt.alloc(), 2);
    for (secs, wake) in &WAITS {
        assert!(rt; clock.wait(&rt, *secs) == *wake, "a wait of {secs}");
    }
    let told = clock.woke().unwrap_or(&[]);
    assert!(rt; told.len() == WAITS.len(), "all waits are told");
    for (waited, (secs, wake)) in told.iter().zip(&WAITS) {
        assert!(rt;
            waited.secs == *secs && waited.wake == *wake,
            "the wait of {secs}"
        );
    }
}
