//! Scans of five files by the top call, into a store.

use dbgd_run::{MemSink, Outside, Sink, needs, run};
use federation::MemLink;
use find_client::MemCache;
use http_wire::MemDoor;
use index_keeper::Store;
use row_types::OpenWorld;
use sample_world::open_script;
use std::alloc::Global;
use std::marker::PhantomData;
use std::process::Abort;
use std::sync::Wait;
use std::thread::Threads;
use tree_trait::{MemClock, MemTree, NoGate};

/// The objects of a run over a store.
pub type Around<S> = Outside<
    OpenWorld,
    MemTree<OpenWorld>,
    S,
    MemDoor,
    MemLink,
    MemClock,
    MemSink,
    NoGate,
    MemCache,
>;

/// A scan of three debug files and two sources.
static SCAN: [&str; 5] = ["scan", "-d", "m", "/srv/debug", "/w/src"];

/// The words as the program gets them.
fn scan_words(rt: &impl Abort, alloc: Global) -> Vec<String> {
    let mut words = Vec::new(alloc);
    for word in &SCAN {
        let word = String::from_str(alloc, word).expect(rt, "memory");
        words.push(word).expect(rt, "memory");
    }
    words
}

/// An empty sink.
fn sink(alloc: Global) -> MemSink {
    MemSink::new(alloc, Vec::new(alloc))
}

/// The one hand.
fn hands(rt: &impl Abort, alloc: Global) -> Vec<MemTree<OpenWorld>> {
    let script = open_script(alloc).expect(rt, "memory");
    vec![in alloc; MemTree::new(alloc, script)].expect(rt, "memory")
}

/// What is around a store.
pub fn around<S: Store<OpenWorld>>(rt: &impl Abort, alloc: Global, store: S) -> Around<S> {
    Outside {
        hands: hands(rt, alloc),
        store,
        out: sink(alloc),
        err: sink(alloc),
        doors: Vec::new(alloc),
        links: Vec::new(alloc),
        clock: MemClock::new(alloc, 0),
        gate: NoGate,
        cache: MemCache::new(alloc, Vec::new(alloc), Vec::new(alloc)),
        of: PhantomData::<OpenWorld>,
    }
}

/// Scans into empty sinks, and gives the status.
pub fn scan<S: Store<OpenWorld>, Rt: Threads + Wait + Sync + Abort>(
    rt: &Rt,
    alloc: Global,
    outside: &mut Around<S>,
) -> u8 {
    assert!(rt; !outside.hands.is_empty(), "a hand");
    let words = scan_words(rt, alloc);
    let needs = needs(alloc, words.as_slice()).expect(rt, "memory");
    assert!(rt; needs.doors == 0, "a server");
    assert!(rt; needs.rows == 0, "rows of links");
    outside.out = sink(alloc);
    outside.err = sink(alloc);
    run(rt, alloc, words.as_slice(), outside)
}

/// Scans, and compares what is said and the status.
pub fn compare<S: Store<OpenWorld>, Rt: Threads + Wait + Sync + Abort>(
    rt: &Rt,
    alloc: Global,
    outside: &mut Around<S>,
    out: &str,
    err: &str,
    status: u8,
) {
    let ended = scan(rt, alloc, outside);
    has_said(rt, &outside.err, err);
    has_said(rt, &outside.out, out);
    assert!(rt; ended == status, "{ended}");
}

/// A sink got this.
pub fn has_said(rt: &impl Abort, sink: &MemSink, text: &str) {
    assert!(rt;
        sink.written().expect(rt, "told") == text.as_bytes(),
        "{text}"
    );
}

/// The line of a scan that found so many rows kept.
pub fn line(rt: &impl Abort, alloc: Global, kept: u64) -> String {
    let added = 5_u64.saturating_sub(kept);
    format!(in alloc;
        "scan: 5 files, {added} added, 0 replaced, 0 dropped, {kept} kept, \
            0 executables, 2 debuginfo\n"
    )
    .expect(rt, "memory")
}

/// A scan that goes on from so many rows.
pub fn goes_on<S: Store<OpenWorld>, Rt: Threads + Wait + Sync + Abort>(
    rt: &Rt,
    alloc: Global,
    outside: &mut Around<S>,
    kept: u64,
) {
    compare(rt, alloc, outside, line(rt, alloc, kept).as_str(), "", 0);
}
