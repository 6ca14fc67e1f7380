//! One harness for all runs: words are run over objects in memory, and what comes of each is
//! compared.

use crate::runs::hands::{Files, hand_of};
use dbgd_run::{Outside, needs, run, run_local};
use elf_reading::ElfTruth;
use federation::MemLink;
use find_client::MemCache;
use http_wire::{MemDoor, MemSink, Sink, Stream, WriteAnswer};
use index_keeper::{Kept, MemStore};
use row_types::OpenWorld;
use std::alloc::Global;
use std::marker::PhantomData;
use std::process::Abort;
use std::sync::Wait;
use std::thread::Threads;
use tree_trait::{MemClock, NoGate, Tree};

/// When the objects around a hand fail: the call of the store from which on it fails, until it is
/// opened again, those of its calls that fail once, the writes that fail on out and on err, and how
/// many bytes a write takes at most.
#[derive(Clone, Copy)]
pub struct Plan<'a> {
    pub stop_at: Option<u64>,
    pub bad_calls: &'a [u64],
    pub bad_out: &'a [u64],
    pub bad_err: &'a [u64],
    pub width: usize,
}

/// Nothing fails.
pub const SOUND: Plan<'static> = Plan {
    stop_at: None,
    bad_calls: &[],
    bad_out: &[],
    bad_err: &[],
    width: 1000,
};

/// A run: its words, all that out and err have got by its end, and its status.
#[derive(Clone, Copy)]
pub struct Run<'a>(pub &'a [&'a str], pub &'a [u8], pub &'a str, pub u8);

/// What a hand has, its calls that fail, what else fails, and runs over it, one after the other.
#[derive(Clone, Copy)]
pub struct Case<'a>(pub Files, pub &'a [u64], pub Plan<'a>, pub &'a [Run<'a>]);

/// A sink in memory that takes so many bytes at most at a time.
#[derive(Drop)]
pub struct Narrow {
    pub sink: MemSink,
    pub width: usize,
}

impl Stream for Narrow {
    ghost use Rattle.http_wire.specs.MemSink.{shown_sink};

    ghost shows = { λ s. shown_sink s.sink };
}

impl Sink for Narrow {
    fn write(&mut self, bytes: &[u8]) -> WriteAnswer {
        self.sink
            .write(&bytes[..bytes.len().min(self.width.max(1))])
    }
}

/// The objects of a run.
pub type Memory<W, T> = Outside<
    W,
    T,
    MemStore<W>,
    MemDoor,
    MemLink,
    MemClock,
    Narrow,
    NoGate,
    MemCache,
>;

/// The words as the program gets them.
pub fn words_of(rt: &impl Abort, alloc: Global, words: &[&str]) -> Vec<String> {
    let mut texts = Vec::new(alloc);
    for word in words {
        let text = String::from_str(alloc, word).expect(rt, "memory");
        texts.push(text).expect(rt, "memory");
    }
    texts
}

/// A sink of a plan.
pub fn sink_of(rt: &impl Abort, alloc: Global, bad_writes: &[u64], width: usize) -> Narrow {
    let bad_writes = Vec::from_slice(alloc, bad_writes).expect(rt, "memory");
    Narrow {
        sink: MemSink::new(alloc, bad_writes),
        width,
    }
}

/// A store that keeps nothing yet, by a plan.
pub fn empty_store<W: ElfTruth + Send + Sync>(
    rt: &impl Abort,
    alloc: Global,
    plan: &Plan<'_>,
) -> MemStore<W> {
    let bad_calls = Vec::from_slice(alloc, plan.bad_calls).expect(rt, "memory");
    MemStore::new(alloc, Vec::new(alloc), plan.stop_at, bad_calls)
}

/// A hand alone.
pub fn one_hand<T: Drop>(rt: &impl Abort, alloc: Global, hand: T) -> Vec<T> {
    let mut hands = Vec::new(alloc);
    hands.push(hand).ok().expect(rt, "memory");
    hands
}

/// A cache that holds nothing.
pub fn no_values(alloc: Global) -> MemCache {
    MemCache::new(alloc, Vec::new(alloc), Vec::new(alloc))
}

/// The objects around hands and a store, by a plan.
pub fn outside_of<W: ElfTruth + Send + Sync, T: Tree<W>>(
    rt: &impl Abort,
    alloc: Global,
    hands: Vec<T>,
    store: MemStore<W>,
    plan: &Plan<'_>,
) -> Memory<W, T> {
    Outside {
        hands,
        store,
        doors: Vec::new(alloc),
        links: Vec::new(alloc),
        clock: MemClock::new(alloc, 0),
        out: sink_of(rt, alloc, plan.bad_out, plan.width),
        err: sink_of(rt, alloc, plan.bad_err, plan.width),
        gate: NoGate,
        cache: no_values(alloc),
        of: PhantomData::<W>,
    }
}

/// Compares what a sink got by the end of a run of these words.
pub fn compare(rt: &impl Abort, sink: &MemSink, want: &[u8], name: &str, words: &[&str]) {
    let got = sink.written().expect(rt, "told");
    assert!(rt; got == want, "{name} of {words:?}: {got:?}");
}

/// The status of a run of these words.
pub fn status_of<W: ElfTruth + Send + Sync, T: Tree<W>, Rt: Threads + Wait + Sync + Abort>(
    rt: &Rt,
    alloc: Global,
    outside: &mut Memory<W, T>,
    words: &[&str],
) -> u8 {
    let texts = words_of(rt, alloc, words);
    let needs = needs(alloc, texts.as_slice()).expect(rt, "memory");
    assert!(rt; needs.hands.min(1) <= outside.hands.len() as u64, "a hand");
    assert!(rt; needs.doors == 0, "a server");
    assert!(rt; needs.rows == 0, "rows of links");
    run(rt, alloc, texts.as_slice(), outside)
}

/// Runs once, and compares.
fn run_once<W: ElfTruth + Send + Sync, T: Tree<W>, Rt: Threads + Wait + Sync + Abort>(
    rt: &Rt,
    alloc: Global,
    outside: &mut Memory<W, T>,
    case: &Run<'_>,
) {
    let Run(words, out, err, status) = case;
    let ended = status_of(rt, alloc, outside, words);
    compare(rt, &outside.out.sink, out, "out", words);
    compare(rt, &outside.err.sink, err.as_bytes(), "err", words);
    assert!(rt; ended == *status, "status of {words:?}: {ended}");
}

/// Runs one after the other over hands and a store.
pub fn run_over<W: ElfTruth + Send + Sync, T: Tree<W>, Rt: Threads + Wait + Sync + Abort>(
    rt: &Rt,
    alloc: Global,
    hands: Vec<T>,
    store: MemStore<W>,
    plan: &Plan<'_>,
    runs: &[Run<'_>],
) {
    let mut outside = outside_of(rt, alloc, hands, store, plan);
    for case in runs {
        run_once(rt, alloc, &mut outside, case);
    }
}

/// Runs one after the other over a hand and the objects of a plan. The store keeps nothing yet.
pub fn run_all<W: ElfTruth + Send + Sync, T: Tree<W>, Rt: Threads + Wait + Sync + Abort>(
    rt: &Rt,
    alloc: Global,
    hand: T,
    plan: &Plan<'_>,
    runs: &[Run<'_>],
) {
    let hands = one_hand(rt, alloc, hand);
    run_over(rt, alloc, hands, empty_store(rt, alloc, plan), plan, runs);
}

/// A store that keeps a value under `/a`.
fn store_of(rt: &impl Abort, alloc: Global, bytes: &[u8]) -> MemStore<OpenWorld> {
    let value = Kept::of(alloc, "/a", bytes).expect(rt, "memory");
    let kept = vec![in alloc; value].expect(rt, "memory");
    MemStore::new(alloc, kept, None, Vec::new(alloc))
}

/// Runs one after the other over a hand of the open world, and a store that keeps a value under
/// `/a`. Nothing fails.
pub fn run_kept<Rt: Threads + Wait + Sync + Abort>(
    rt: &Rt,
    alloc: Global,
    files: &Files,
    bytes: &[u8],
    runs: &[Run<'_>],
) {
    let hands = vec![in alloc; hand_of(rt, alloc, files, &[])].expect(rt, "memory");
    run_over(rt, alloc, hands, store_of(rt, alloc, bytes), &SOUND, runs);
}

/// Runs each case over a hand of the open world.
pub fn run_cases<Rt: Threads + Wait + Sync + Abort>(rt: &Rt, alloc: Global, cases: &[Case<'_>]) {
    for Case(files, bad_calls, plan, runs) in cases {
        run_all(rt, alloc, hand_of(rt, alloc, files, bad_calls), plan, runs);
    }
}

/// What the local part answers to these words.
fn local_answer<W: ElfTruth + Send + Sync, T: Tree<W>>(
    rt: &impl Abort,
    alloc: Global,
    outside: &mut Memory<W, T>,
    words: &[&str],
) -> Option<u8> {
    let texts = words_of(rt, alloc, words);
    let needs = needs(alloc, texts.as_slice()).expect(rt, "memory");
    assert!(rt; needs.hands.min(1) <= outside.hands.len() as u64, "a hand");
    run_local(alloc, texts.as_slice(), outside)
}

/// Compares what the local part answers to these words, one after the other, over a hand.
pub fn answer_locally<W: ElfTruth + Send + Sync, T: Tree<W>>(
    rt: &impl Abort,
    alloc: Global,
    hand: T,
    cases: &[(&[&str], Option<u8>)],
) {
    answer_alone(rt, alloc, one_hand(rt, alloc, hand), cases);
}

/// The same over these hands.
pub fn answer_alone<W: ElfTruth + Send + Sync, T: Tree<W>>(
    rt: &impl Abort,
    alloc: Global,
    hands: Vec<T>,
    cases: &[(&[&str], Option<u8>)],
) {
    let store = empty_store(rt, alloc, &SOUND);
    let mut outside = outside_of(rt, alloc, hands, store, &SOUND);
    for (words, want) in cases {
        let answer = local_answer(rt, alloc, &mut outside, words);
        assert!(rt; answer == *want, "{words:?}: {answer:?}");
    }
}
