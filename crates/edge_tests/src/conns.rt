//! What a dialled connection makes of what its stream answers.

use crate::standing::{Napping, Scripted};
use dbgd_edges::DialledConn;
use http_wire::{ReadAnswer, Sink, Source, WriteAnswer};
use std::alloc::Global;
use std::process::Abort;
use std::time::{Clock, Duration};

// Numbers of Linux (asm-generic/errno-base.h and errno.h), with a sign.
const EINTR: i32 = -4;

const EAGAIN: i32 = -11;

const EPIPE: i32 = -32;

const ECONNRESET: i32 = -104;

/// What the stream answers, one call after the other; what a read of at most 8 bytes gives then, and
/// what a write gives: so many bytes, no more (0), or a fault (-1).
type Case = (&'static [i32], i64, i64);

static CASES: [Case; 9] = [
    (&[5], 5, 5),
    (&[20], 8, 8),
    (&[0], 0, -1),
    (&[EINTR, EINTR, 3], 3, 3),
    (&[EAGAIN], -1, -1),
    (&[EINTR, EAGAIN], -1, -1),
    (&[EINTR, EPIPE], -1, -1),
    (&[ECONNRESET], -1, -1),
    (&[EINTR; 1100], -1, -1),
];

/// A stream that answers by a list.
fn stream_of(rt: &impl Abort, alloc: Global, answers: &[i32]) -> Scripted {
    let answers = Vec::from_slice(alloc, answers).expect(rt, "memory");
    Scripted { answers, calls: 0 }
}

/// A connection that was dialled.
fn dialled<'a>(
    rt: &impl Abort,
    clock: &'a Napping,
    stream: Scripted,
) -> DialledConn<&'a Napping, Scripted> {
    DialledConn::new(clock, stream).expect(rt, "a connection")
}

/// What a read of at most 8 bytes gives.
fn read_of<S: Source>(conn: &mut S) -> i64 {
    match conn.read(&mut [0; 8]) {
        ReadAnswer::Bytes(n) => i64::try_from(n).unwrap_or(-2),
        ReadAnswer::End => 0,
        ReadAnswer::Failed => -1,
    }
}

/// What a write of 8 bytes gives.
fn write_of<S: Sink>(conn: &mut S) -> i64 {
    match conn.write(b"8 bytes!") {
        WriteAnswer::Took(n) => i64::try_from(n).unwrap_or(-2),
        WriteAnswer::Failed => -1,
    }
}

/// What a read and a write give of a connection that was dialled so many milliseconds ago.
fn of_dialled(rt: &impl Abort, alloc: Global, answers: &[i32], millis: u64) -> (i64, i64) {
    let clock = Napping::new(u64::MAX);
    let mut read = dialled(rt, &clock, stream_of(rt, alloc, answers));
    let mut wrote = dialled(rt, &clock, stream_of(rt, alloc, answers));
    clock.sleep(Duration::from_millis(millis));
    (read_of(&mut read), write_of(&mut wrote))
}

#[test]
fn each_answer_of_a_stream_has_its_meaning(rt: HostRuntime) {
    for (answers, read, wrote) in &CASES {
        let first = answers.first().copied().unwrap_or(0);
        assert!(rt;
            of_dialled(&rt, rt.alloc(), answers, 0) == (*read, *wrote),
            "{first} first"
        );
    }
}

#[test]
fn a_question_is_over_after_its_time(rt: HostRuntime) {
    for (millis, wanted) in [(0, 5), (89_999, 5), (90_000, -1), (900_000, -1)] {
        assert!(rt;
            of_dialled(&rt, rt.alloc(), &[5], millis) == (wanted, wanted),
            "after {millis} milliseconds"
        );
    }
}
