//! Connections in memory, and what comes of them by the files of the reference tree.

ghost use Rattle.std.specs.Prelude.{◌≡◌, ◌<◌, All, IsSome};

use crate::counters::shares::one_drawn;
use conn_server::{Asked, ConnEnd, ConnReport, DoorEnd, Served, serve_connection, serve_door};
use dbgd_metrics::{Book, Share};
use federation::{Link, MemLink};
use http_wire::{Door, MemConn, Sink, Source};
use row_types::{CanonPath, Truth};
use sample_index::{Index, Lock, Shared, Token, empty_index, put_behind, reference_index};
use sample_rows::paths;
use sample_world::{SampleWorld, changed_file_script, reference_script};
use std::alloc::Global;
use std::process::Abort;
use std::sync::Wait;
use tree_trait::{Gate, MemTree, NoGate};

/// How a connection is read and written: the bytes that come, how many reads give one byte each
/// before the others, and the reads, the writes and the hand's calls that fail, counted from 0.
#[derive(Clone, Copy)]
pub struct Plan<'a> {
    pub input: &'a str,
    pub cuts: usize,
    pub bad_reads: &'a [u64],
    pub bad_writes: &'a [u64],
    pub bad_calls: &'a [u64],
}

/// These bytes come whole, and nothing fails.
pub fn whole(input: &str) -> Plan<'_> {
    Plan {
        input,
        cuts: 0,
        bad_reads: &[],
        bad_writes: &[],
        bad_calls: &[],
    }
}

/// So many ones.
fn ones(rt: &impl Abort, alloc: Global, count: usize) -> Vec<usize>
    ensures { All (λ n. 0 < n) result.items }
{
    vec![in alloc; 1; count].expect(rt, "memory")
}

/// The connection of a plan.
pub fn conn(rt: &impl Abort, alloc: Global, plan: &Plan<'_>) -> MemConn {
    MemConn::new(
        alloc,
        Vec::from_slice(alloc, plan.input.as_bytes()).expect(rt, "memory"),
        ones(rt, alloc, plan.cuts),
        Vec::from_slice(alloc, plan.bad_reads).expect(rt, "memory"),
        Vec::from_slice(alloc, plan.bad_writes).expect(rt, "memory"),
    )
}

/// No links.
fn no_links(alloc: Global) -> Vec<MemLink> {
    Vec::new(alloc)
}

/// Serves a connection by an index, a hand and links.
fn serve_by<W: Truth + Send, L: Link, N: Source + Sink, G: Gate, R: Abort + Wait + Sync>(
    rt: &R,
    alloc: Global,
    index: Index<W>,
    hand: &mut MemTree<W>,
    links: &mut [L],
    conn: &mut N,
    gate: &G,
) -> ConnReport {
    let Shared { lock, seat } = put_behind(alloc, index).expect(rt, "memory");
    let (book, mut share) = one_drawn(rt, alloc, 1);
    let folders = folders(rt, alloc);
    let (_seat, report) = serve_connection(
        rt,
        alloc,
        &lock,
        seat,
        hand,
        links,
        folders.as_slice(),
        &book,
        &mut share,
        conn,
        7,
        gate,
    );
    report
}

/// What comes of a connection by the reference tree and its index, whose requests are counted in a
/// share.
pub fn serve_counting<N: Source + Sink, R: Abort + Wait + Sync>(
    rt: &R,
    alloc: Global,
    book: &Book,
    share: &mut Share,
    conn: &mut N,
) -> ConnReport
    requires book { share.old.book ≡ book.now.id }
    requires row { IsSome share.old.row }
{
    let folders = folders(rt, alloc);
    let mut hand = hand(rt, alloc, &[]);
    let mut links = no_links(alloc);
    let index = reference_index(alloc).expect(rt, "an index");
    let Shared { lock, seat } = put_behind(alloc, index).expect(rt, "memory");
    let (_seat, report) = serve_connection(
        rt,
        alloc,
        &lock,
        seat,
        &mut hand,
        links.as_mut_slice(),
        folders.as_slice(),
        book,
        share,
        conn,
        7,
        &NoGate,
    );
    report
}

/// The folders of sources.
fn folders(rt: &impl Abort, alloc: Global) -> Vec<CanonPath> {
    paths(alloc, &["/w"]).expect(rt, "a canonical path")
}

/// The hand of the reference tree, of which the calls of these numbers fail.
fn hand(rt: &impl Abort, alloc: Global, bad_calls: &[u64]) -> MemTree<SampleWorld> {
    let bad_calls = Vec::from_slice(alloc, bad_calls).expect(rt, "memory");
    MemTree::new(
        alloc,
        reference_script(alloc, bad_calls).expect(rt, "memory"),
    )
}

/// What comes of a connection by the reference tree, its index and no links, past a gate, which gets the
/// number 7. The hand's calls of these numbers fail.
pub fn report_of<N: Source + Sink, G: Gate, R: Abort + Wait + Sync>(
    rt: &R,
    alloc: Global,
    conn: &mut N,
    bad_calls: &[u64],
    gate: &G,
) -> ConnReport {
    let mut links = no_links(alloc);
    let mut hand = hand(rt, alloc, bad_calls);
    let index = reference_index(alloc).expect(rt, "an index");
    serve_by(
        rt,
        alloc,
        index,
        &mut hand,
        links.as_mut_slice(),
        conn,
        gate,
    )
}

/// How the serving of a door ends by the reference tree and its index, past a gate. Its connections are
/// numbered from the first of two numbers on, by the second.
pub fn serve_at<D: Door, G: Gate, R: Abort + Wait + Sync>(
    rt: &R,
    alloc: Global,
    book: &Book,
    share: &mut Share,
    door: &mut D,
    numbers: (u64, u64),
    gate: &G,
) -> DoorEnd
    requires book { share.old.book ≡ book.now.id }
    requires row { IsSome share.old.row }
{
    let folders = folders(rt, alloc);
    let mut hand = hand(rt, alloc, &[]);
    let mut links = no_links(alloc);
    let index = reference_index(alloc).expect(rt, "an index");
    let Shared { lock, seat } = put_behind(alloc, index).expect(rt, "memory");
    let (first, step) = numbers;
    let (_seat, end) = serve_door(
        rt,
        alloc,
        &lock,
        seat,
        &mut hand,
        links.as_mut_slice(),
        folders.as_slice(),
        book,
        share,
        door,
        first,
        step,
        gate,
    );
    end
}

/// What comes of a connection of this number by the reference tree and an index behind a lock, past a
/// gate.
pub fn serve_through<N: Source + Sink, G: Gate, R: Abort + Wait + Sync>(
    rt: &R,
    alloc: Global,
    lock: &Lock<SampleWorld>,
    seat: Token<SampleWorld>,
    conn: &mut N,
    number: u64,
    gate: &G,
) -> ConnReport
    requires { seat.lock ≡ lock.now }
{
    let folders = folders(rt, alloc);
    let mut hand = hand(rt, alloc, &[]);
    let mut links = no_links(alloc);
    let (book, mut share) = one_drawn(rt, alloc, 1);
    let (_seat, report) = serve_connection(
        rt,
        alloc,
        lock,
        seat,
        &mut hand,
        links.as_mut_slice(),
        folders.as_slice(),
        &book,
        &mut share,
        conn,
        number,
        gate,
    );
    report
}

/// What comes of a connection by an index and a hand without links, past no gate.
pub fn report_by<W: Truth + Send, N: Source + Sink, R: Abort + Wait + Sync>(
    rt: &R,
    alloc: Global,
    index: Index<W>,
    hand: &mut MemTree<W>,
    conn: &mut N,
) -> ConnReport {
    let mut links = no_links(alloc);
    serve_by(rt, alloc, index, hand, links.as_mut_slice(), conn, &NoGate)
}

/// What comes of a connection by an index without rows and links, past no gate.
pub fn report_without_rows<N: Source + Sink, L: Link, R: Abort + Wait + Sync>(
    rt: &R,
    alloc: Global,
    conn: &mut N,
    links: &mut [L],
) -> ConnReport {
    let script = changed_file_script(alloc, 0).expect(rt, "memory");
    let mut hand = MemTree::new(alloc, script);
    let index = empty_index(alloc, None).expect(rt, "an index");
    serve_by(rt, alloc, index, &mut hand, links, conn, &NoGate)
}

/// Each request for a file is told with the length of the index's log, which has a line for each of 12
/// rows, and what asks for none with 0.
fn are_told(rt: &impl Abort, served: &[Served]) {
    for told in served {
        let log = if matches!(&told.asked, Asked::Route(_)) {
            12
        } else {
            0
        };
        assert!(rt; told.gen_ == log, "{}", told.gen_);
    }
}

/// The connection of a plan, served, how many requests were answered, and the end.
pub fn serve<R: Abort + Wait + Sync>(
    rt: &R,
    alloc: Global,
    plan: &Plan<'_>,
) -> (MemConn, usize, ConnEnd) {
    let mut conn = conn(rt, alloc, plan);
    let report = report_of(rt, alloc, &mut conn, plan.bad_calls, &NoGate);
    are_told(rt, report.served.as_slice());
    (conn, report.served.len(), report.end)
}

/// Of the connection of a plan so many requests are answered, by these bytes, and it ends so.
pub fn compare<R: Abort + Wait + Sync>(
    rt: &R,
    alloc: Global,
    plan: &Plan<'_>,
    wanted: &[u8],
    requests: usize,
    wanted_end: ConnEnd,
) {
    let (conn, served, end) = serve(rt, alloc, plan);
    assert!(rt; conn.written() == Some(wanted), "{}", plan.input);
    assert!(rt; conn.calls().is_some(), "{}", plan.input);
    assert!(rt; served == requests, "{}", plan.input);
    assert!(rt; end == wanted_end, "{}", plan.input);
}
