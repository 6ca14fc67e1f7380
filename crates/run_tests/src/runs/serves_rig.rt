//! One harness for servers: each is run over doors, a clock, a store and sinks in memory, and what out
//! and err got, the status, the waits and the replies are compared.

ghost use Rattle.std.specs.Prelude.{◌≡◌, All, length};

use crate::runs::hands::{Files, hand_of};
use crate::runs::rig::{Narrow, Plan, Run, compare, empty_store, no_values, sink_of, words_of};
use crate::runs::serves_replies::{Ask, replies};
use dbgd_run::{Outside, needs, run};
use elf_reading::ElfTruth;
use federation::MemLink;
use find_client::MemCache;
use http_wire::{Door, MemConn, MemDoor};
use index_keeper::MemStore;
use row_types::OpenWorld;
use std::alloc::Global;
use std::marker::PhantomData;
use std::process::Abort;
use std::sync::Wait;
use std::thread::Threads;
use tree_trait::{Gate, MemClock, MemTree, Tree};

/// The objects of a server.
pub type Server<W, T, D, G> = Outside<W, T, MemStore<W>, D, MemLink, MemClock, Narrow, G, MemCache>;

/// A connection on which this comes.
fn conn(rt: &impl Abort, alloc: Global, input: &str) -> MemConn {
    let input = Vec::from_slice(alloc, input.as_bytes()).expect(rt, "memory");
    MemConn::new(
        alloc,
        input,
        Vec::new(alloc),
        Vec::new(alloc),
        Vec::new(alloc),
    )
}

/// A door that gives a connection for each of these, on which it comes.
pub fn door(rt: &impl Abort, alloc: Global, inputs: &[&str]) -> MemDoor {
    let mut conns = Vec::new(alloc);
    for input in inputs {
        conns.push(conn(rt, alloc, input)).expect(rt, "memory");
    }
    MemDoor::new(alloc, conns)
}

/// A door that gives a connection for each of these requests.
pub fn door_for(rt: &impl Abort, alloc: Global, asks: &[Ask]) -> MemDoor {
    let mut conns = Vec::new(alloc);
    for ask in asks {
        conns
            .push(conn(rt, alloc, ask.request()))
            .expect(rt, "memory");
    }
    MemDoor::new(alloc, conns)
}

/// A door for each of these lists.
pub fn doors(rt: &impl Abort, alloc: Global, inputs: &[&[&str]]) -> Vec<MemDoor> {
    let mut doors = Vec::new(alloc);
    for inputs in inputs {
        doors.push(door(rt, alloc, inputs)).expect(rt, "memory");
    }
    doors
}

/// So many hands that have these files.
pub fn hands(rt: &impl Abort, alloc: Global, files: &Files, count: u64) -> Vec<MemTree<OpenWorld>> {
    let mut hands = Vec::new(alloc);
    for _ in 0..count {
        hands
            .push(hand_of(rt, alloc, files, &[]))
            .expect(rt, "memory");
    }
    hands
}

/// So many rows without a link.
fn no_links(rt: &impl Abort, alloc: Global, count: usize) -> Vec<Vec<MemLink>> {
    let mut rows = Vec::new(alloc);
    for _ in 0..count {
        let pushed = rows.push(Vec::new(alloc));
        assert!(rt; pushed.is_ok(), "memory");
    }
    rows
}

/// What is around a server: its store and its sinks are those of a plan, the clock says Again so
/// often, and no door has a link to another server.
pub fn around<W: ElfTruth + Send + Sync, T: Tree<W>, D: Door, G: Gate + Drop>(
    rt: &impl Abort,
    alloc: Global,
    hands: Vec<T>,
    doors: Vec<D>,
    gate: G,
    plan: &Plan<'_>,
    rounds: u64,
) -> Server<W, T, D, G> {
    let links = no_links(rt, alloc, doors.len());
    Outside {
        hands,
        store: empty_store(rt, alloc, plan),
        doors,
        links,
        clock: MemClock::new(alloc, rounds),
        out: sink_of(rt, alloc, plan.bad_out, plan.width),
        err: sink_of(rt, alloc, plan.bad_err, plan.width),
        gate,
        cache: no_values(alloc),
        of: PhantomData::<W>,
    }
}

/// Each of these rows has so many links.
pub fn are_linked(rt: &impl Abort, rows: &[Vec<MemLink>], count: usize)
    ensures { All (λ row. length row.items ≡ count) rows.now }
{
    for row in rows {
        assert!(rt; row.len() == count, "links");
    }
}

/// The status of a server.
fn status_of<
    W: ElfTruth + Send + Sync,
    T: Tree<W>,
    D: Door,
    G: Gate + Drop,
    Rt: Threads + Wait + Sync + Abort,
>(rt: &Rt, alloc: Global, server: &mut Server<W, T, D, G>, words: &[&str]) -> u8 {
    let texts = words_of(rt, alloc, words);
    let needs = needs(alloc, texts.as_slice()).expect(rt, "memory");
    assert!(rt;
        needs.hands <= server.hands.len() as u64,
        "hands of {words:?}"
    );
    assert!(rt;
        needs.doors == server.doors.len() as u64,
        "doors of {words:?}"
    );
    assert!(rt;
        needs.rows <= server.links.len() as u64,
        "rows of links of {words:?}"
    );
    are_linked(rt, server.links.as_slice(), needs.upstream.len());
    run(rt, alloc, texts.as_slice(), server)
}

/// Compares for how many seconds the clock was asked, wait by wait.
fn compare_waits(rt: &impl Abort, clock: &MemClock, waits: &[u64], words: &[&str]) {
    let told = clock.woke().expect(rt, "told");
    assert!(rt;
        told.len() == waits.len(),
        "waits of {words:?}: {}",
        told.len()
    );
    for (waited, secs) in told.iter().zip(waits) {
        assert!(rt; waited.secs == *secs, "waits of {words:?}: {}", waited.secs);
    }
}

/// Runs a server, and compares what it says, how it ends, and the waits between its passes.
pub fn serve<
    W: ElfTruth + Send + Sync,
    T: Tree<W>,
    D: Door,
    G: Gate + Drop,
    Rt: Threads + Wait + Sync + Abort,
>(rt: &Rt, alloc: Global, server: &mut Server<W, T, D, G>, case: &Run<'_>, waits: &[u64]) {
    let Run(words, out, err, status) = case;
    let ended = status_of(rt, alloc, server, words);
    compare(rt, &server.out.sink, out, "out", words);
    compare(rt, &server.err.sink, err.as_bytes(), "err", words);
    assert!(rt; ended == *status, "status of {words:?}: {ended}");
    compare_waits(rt, &server.clock, waits, words);
}

/// So many connections of a door were taken back.
pub fn has_ended(rt: &impl Abort, door: &MemDoor, count: usize) {
    let ended = door.ended_conns().expect(rt, "told");
    assert!(rt; ended.len() == count, "{} connections", ended.len());
}

/// The connection at a place, of those that a door took back, has these replies.
pub fn is_answered(rt: &impl Abort, door: &MemDoor, place: usize, wanted: &[u8]) {
    let ended = door.ended_conns().expect(rt, "told");
    let conn = ended.get(place).expect(rt, "a connection");
    let written = conn.written().expect(rt, "told");
    assert!(rt; written == wanted, "connection {place}: {written:?}");
}

/// Each connection of a door was answered as its request wants.
pub fn are_answered(rt: &impl Abort, alloc: Global, door: &MemDoor, asks: &[Ask]) {
    has_ended(rt, door, asks.len());
    for (place, ask) in asks.iter().enumerate() {
        let wanted = replies(rt, alloc, &[*ask]);
        is_answered(rt, door, place, wanted.as_slice());
    }
}
