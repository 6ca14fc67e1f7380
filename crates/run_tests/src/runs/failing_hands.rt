//! First scans of the reference tree in which one call of one hand fails: a failure of the first hand
//! ends the scan with a fault, and the next one is whole; one of another hand costs nothing.

use crate::runs::rig::{Memory, SOUND, compare, empty_store, outside_of, status_of};
use index_keeper::{Keeper, Kept, KeptAnswer, MemStore, Store, StoreAnswer};
use row_types::OpenWorld;
use sample_world::open_script;
use std::alloc::Global;
use std::process::Abort;
use std::sync::Wait;
use std::thread::Threads;
use tree_trait::{LoadAnswer, MemTree, Tree};

/// A scan of the reference tree.
struct Scan {
    words: &'static [&'static str],
    /// The most calls that each hand makes: the one that walks, the one that looks, and the workers, each
    /// if it does all of the work.
    calls: &'static [u64],
    /// What the store keeps before: a path and the bytes under it, or nothing.
    before: &'static [u8],
    /// Its line where the first hand doesn't fail.
    line: &'static [u8],
    /// How many scans meet a failure of a hand that isn't the first, at least and at most.
    others: (u64, u64),
}

/// The line of the worked row of this tree.
const LINE: &[u8] =
    b"scan: 12 files, 12 added, 0 replaced, 0 dropped, 0 kept, 4 executables, 4 debuginfo\n";

/// The path `/srv/bin/gone`, and the row bytes of this file, of one byte and changed at second 1, no ELF
/// file. It isn't there, for which the second hand looks.
const STRAY: &[u8] =
    b"/srv/bin/gone\x02\x0d\0\0\0/srv/bin/gone\x01\0\0\0\0\0\0\0\x01\0\0\0\0\0\0\0\0\0\0\0\0\x01";

/// How many calls a walk makes: three looks at the roots, five readings, twelve looks. Twelve openings
/// and 32 reads follow.
const WALK: u64 = 20;

/// A scan by a hand alone.
static ALONE: Scan = Scan {
    words: &["scan", "-d", "m", "-c", "1", "/srv/bin", "/srv/debug", "/w"],
    calls: &[64],
    before: b"",
    line: LINE,
    others: (0, 0),
};

/// Scans by one worker, over a store without rows and one with the row of a file that is gone.
static ONE_WORKER: [Scan; 2] = [
    Scan {
        words: &["scan", "-d", "m", "-c", "1", "/srv/bin", "/srv/debug", "/w"],
        calls: &[WALK, 0, 44],
        before: b"",
        line: LINE,
        others: (44, 44),
    },
    Scan {
        words: &["scan", "-d", "m", "-c", "1", "/srv/bin", "/srv/debug", "/w"],
        calls: &[WALK, 1, 44],
        before: STRAY,
        line: b"scan: 12 files, 12 added, 0 replaced, 1 dropped, 0 kept, 4 executables, 4 debuginfo\n",
        others: (45, 45),
    },
];

/// Scans by more workers. Which of them reads a file isn't fixed: so one that is to fail at a call may not
/// come to it.
static TWO_WORKERS: Scan = Scan {
    words: &["scan", "-d", "m", "-c", "2", "/srv/bin", "/srv/debug", "/w"],
    calls: &[WALK, 0, 44, 44],
    before: b"",
    line: LINE,
    others: (0, 88),
};

static FOUR_WORKERS: Scan = Scan {
    words: &["scan", "-d", "m", "-c", "4", "/srv/bin", "/srv/debug", "/w"],
    calls: &[WALK, 0, 44, 44, 44, 44],
    before: b"",
    line: LINE,
    others: (0, 176),
};

/// A hand that has the reference tree, and fails at these calls.
fn failing(rt: &impl Abort, alloc: Global, bad: &[u64]) -> MemTree<OpenWorld> {
    let mut script = open_script(alloc).expect(rt, "memory");
    script.bad_calls = Vec::from_slice(alloc, bad).expect(rt, "memory");
    MemTree::new(alloc, script)
}

/// So many hands, of which the one at a place fails at a call.
fn one_fails(
    rt: &impl Abort,
    alloc: Global,
    count: usize,
    at: usize,
    call: u64,
) -> Vec<MemTree<OpenWorld>> {
    let calls = [call];
    let mut hands = Vec::new(alloc);
    for place in 0..count {
        let bad: &[u64] = if place == at { &calls } else { &[] };
        hands.push(failing(rt, alloc, bad)).expect(rt, "memory");
    }
    hands
}

/// The store that keeps the row of the file which isn't there.
fn stray_store(rt: &impl Abort, alloc: Global) -> MemStore<OpenWorld> {
    let bytes = STRAY.get(13..).expect(rt, "bytes behind a path of 13");
    let value = Kept::of(alloc, "/srv/bin/gone", bytes).expect(rt, "memory");
    let kept = vec![in alloc; value].expect(rt, "memory");
    MemStore::new(alloc, kept, None, Vec::new(alloc))
}

/// The store of a scan.
fn store_of(rt: &impl Abort, alloc: Global, scan: &Scan) -> MemStore<OpenWorld> {
    if scan.before.is_empty() {
        empty_store(rt, alloc, &SOUND)
    } else {
        stray_store(rt, alloc)
    }
}

/// Whether a hand has come to the call at which it fails: else one of as many calls does.
fn has_failed<T: Tree<OpenWorld>>(alloc: Global, hand: &mut T, call: u64) -> bool {
    for _ in 0..=call {
        if matches!(hand.load(alloc, "/none", 1), LoadAnswer::Failed) {
            return false;
        }
    }
    true
}

/// The rows as bytes, each behind its path.
fn bytes_of(rt: &impl Abort, alloc: Global, rows: &[Kept]) -> Vec<u8> {
    let mut bytes = Vec::new(alloc);
    for row in rows {
        let path = row.path.as_bytes();
        bytes.extend_from_slice(path).expect(rt, "memory");
        let kept = row.bytes.as_slice();
        bytes.extend_from_slice(kept).expect(rt, "memory");
    }
    bytes
}

/// What a keeper keeps.
fn kept_by<K: Keeper<OpenWorld>>(rt: &impl Abort, alloc: Global, keeper: &mut K) -> Vec<u8> {
    match keeper.rows(alloc) {
        KeptAnswer::All(rows) => bytes_of(rt, alloc, rows.as_slice()),
        _ => panic!(rt; "the rows can't be read"),
    }
}

/// What a store keeps.
fn kept_in<S: Store<OpenWorld>>(rt: &impl Abort, alloc: Global, store: &mut S) -> Vec<u8> {
    match store.open_store(alloc, "m") {
        StoreAnswer::Opened(mut keeper) => {
            let kept = kept_by(rt, alloc, &mut keeper);
            store.give_back(keeper);
            kept
        }
        _ => panic!(rt; "the store doesn't open"),
    }
}

/// Whether a store keeps just this.
fn keeps<S: Store<OpenWorld>>(rt: &impl Abort, alloc: Global, store: &mut S, rows: &[u8]) -> bool {
    let kept = kept_in(rt, alloc, store);
    kept.as_slice() == rows
}

/// The objects of a scan.
type Objects = Memory<OpenWorld, MemTree<OpenWorld>>;

/// What is around a scan of which the hand at a place fails at a call.
fn around(rt: &impl Abort, alloc: Global, scan: &Scan, at: usize, call: u64) -> Objects {
    let hands = one_fails(rt, alloc, scan.calls.len(), at, call);
    outside_of(rt, alloc, hands, store_of(rt, alloc, scan), &SOUND)
}

/// A scan of which nothing fails.
fn scan_again<Rt: Threads + Wait + Sync + Abort>(
    rt: &Rt,
    alloc: Global,
    outside: &mut Objects,
    scan: &Scan,
) {
    let status = status_of(rt, alloc, outside, scan.words);
    assert!(rt; status == 0, "{status}");
}

/// What a scan leaves in which no hand fails.
fn sound_rows<Rt: Threads + Wait + Sync + Abort>(rt: &Rt, alloc: Global, scan: &Scan) -> Vec<u8> {
    let mut outside = around(rt, alloc, scan, scan.calls.len(), 0);
    scan_again(rt, alloc, &mut outside, scan);
    kept_in(rt, alloc, &mut outside.store)
}

/// What is said where the first hand fails at a call.
fn fault_at(call: u64) -> &'static [u8] {
    if call < WALK {
        b"dbgd: fault folder\n"
    } else {
        b"dbgd: fault file\n"
    }
}

/// The status, and what out and err get, where a hand fails at a call.
fn wanted(scan: &Scan, ends: bool, call: u64) -> (u8, &'static [u8], &'static [u8]) {
    if ends {
        (1, b"", fault_at(call))
    } else {
        (0, scan.line, b"")
    }
}

/// Scans where the hand at a place fails at a call, and once more where that ended the scan. Compares what
/// is said and left, and says whether the hand came to that call.
fn scan_failing<Rt: Threads + Wait + Sync + Abort>(
    rt: &Rt,
    alloc: Global,
    outside: &mut Objects,
    scan: &Scan,
    rows: &[u8],
    at: usize,
    call: u64,
) -> bool {
    let status = status_of(rt, alloc, outside, scan.words);
    let hand = outside.hands.get_mut(at).expect(rt, "a hand");
    let failed = has_failed(alloc, hand, call);
    let (wanted, out, err) = wanted(scan, failed && at == 0, call);
    assert!(rt; status == wanted, "{status} at call {call} of hand {at}");
    compare(rt, &outside.out.sink, out, "out", scan.words);
    compare(rt, &outside.err.sink, err, "err", scan.words);
    if status == 1 {
        scan_again(rt, alloc, outside, scan);
    }
    let has_rows = keeps(rt, alloc, &mut outside.store, rows);
    assert!(rt; has_rows, "rows at call {call} of hand {at}");
    failed
}

/// The same with objects of its own.
fn fails_at<Rt: Threads + Wait + Sync + Abort>(
    rt: &Rt,
    alloc: Global,
    scan: &Scan,
    rows: &[u8],
    at: usize,
    call: u64,
) -> bool {
    let mut outside = around(rt, alloc, scan, at, call);
    scan_failing(rt, alloc, &mut outside, scan, rows, at, call)
}

/// How many of the scans meet their failure in which the hand at a place is to fail at each call in turn.
/// The last of them, behind the calls that the hand makes, meets none.
fn failures_of<Rt: Threads + Wait + Sync + Abort>(
    rt: &Rt,
    alloc: Global,
    scan: &Scan,
    rows: &[u8],
    at: usize,
    calls: u64,
) -> u64 {
    let mut met: u64 = 0;
    for call in 0..calls {
        if fails_at(rt, alloc, scan, rows, at, call) {
            met = met.saturating_add(1);
        }
    }
    assert!(rt; !fails_at(rt, alloc, scan, rows, at, calls), "hand {at}");
    met
}

/// How many of the scans meet a failure of the first hand, and how many one of another.
fn failures<Rt: Threads + Wait + Sync + Abort>(
    rt: &Rt,
    alloc: Global,
    scan: &Scan,
    rows: &[u8],
) -> (u64, u64) {
    let mut first: u64 = 0;
    let mut others: u64 = 0;
    for (at, calls) in scan.calls.iter().enumerate() {
        let met = failures_of(rt, alloc, scan, rows, at, *calls);
        if at == 0 {
            first = met;
        } else {
            others = others.saturating_add(met);
        }
    }
    (first, others)
}

/// The same beside the rows that a sound scan leaves.
fn failures_beside<Rt: Threads + Wait + Sync + Abort>(
    rt: &Rt,
    alloc: Global,
    scan: &Scan,
) -> (u64, u64) {
    let rows = sound_rows(rt, alloc, scan);
    failures(rt, alloc, scan, rows.as_slice())
}

/// Each call of the first hand ends a scan, and so many scans meet a failure of another.
fn compare_failures<Rt: Threads + Wait + Sync + Abort>(rt: &Rt, alloc: Global, scan: &Scan) {
    let (first, others) = failures_beside(rt, alloc, scan);
    let (least, most) = scan.others;
    assert!(rt;
        scan.calls.first() == Some(&first),
        "{first} of the first hand"
    );
    assert!(rt; least <= others && others <= most, "{others} of the others");
}

#[test]
fn a_failing_call_of_a_hand_alone_ends_the_scan(rt: HostRuntime) {
    compare_failures(&rt, rt.alloc(), &ALONE);
}

#[test]
fn a_failing_call_of_the_first_hand_ends_the_scan_and_of_another_costs_nothing(rt: HostRuntime) {
    for scan in &ONE_WORKER {
        compare_failures(&rt, rt.alloc(), scan);
    }
}

#[test]
fn hands_fail_alike_with_two_workers(rt: HostRuntime) {
    compare_failures(&rt, rt.alloc(), &TWO_WORKERS);
}

#[test]
fn hands_fail_alike_with_four_workers(rt: HostRuntime) {
    compare_failures(&rt, rt.alloc(), &FOUR_WORKERS);
}
