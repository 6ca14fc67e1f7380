//! Passes over an index that is shared.

ghost use Rattle.std.specs.Prelude.{◌≡◌, None};

use crate::passes::beside::{MOVED, holding_gate, many, one_fails};
use crate::passes::ends::end_text;
use crate::passes::missed::MISSED;
use crate::passes::passes::{Pass, compare, hands_of};
use crate::passes::whole::WHOLE;
use crate::rig::FOLDERS;
use elf_reading::ElfReader;
use pass_runner::run_pass;
use path_scope::{AllPaths, Selection};
use sample_index::{Lock, Shared, Token, Unspared, empty_shared, taken};
use sample_rows::{paths, rows_text};
use sample_world::SampleWorld;
use std::alloc::Global;
use std::process::Abort;
use std::sync::Wait;
use std::thread::Threads;
use tree_trait::{Gate, MemTree, NoGate};

/// Makes a pass over what is selected with these hands by a token of the lock, and says how it ended.
pub fn pass_by<S: Selection, G: Gate, Rt: Abort + Threads + Wait + Sync>(
    rt: &Rt,
    alloc: Global,
    lock: &Lock<SampleWorld>,
    seat: Token<SampleWorld>,
    hands: Vec<MemTree<SampleWorld>>,
    roots: &[&str],
    select: &mut S,
    gate: &G,
) -> (Token<SampleWorld>, String)
    requires lock { seat.lock ≡ lock.now }
    requires spared { seat.origin.sparing ≡ None }
    ensures lock { result.0.lock ≡ lock.now }
    ensures spared { result.0.origin.sparing ≡ None }
{
    let count = hands.len();
    assert!(rt; count > 0, "there is a hand");
    let roots = paths(alloc, roots).expect(rt, "paths");
    let (seat, hands, end) = run_pass(
        rt,
        alloc,
        lock,
        seat,
        hands,
        roots.as_slice(),
        select,
        &ElfReader,
        gate,
    );
    assert!(rt; hands.len() == count, "all hands come back");
    (seat, end_text(rt, alloc, &end))
}

/// Makes a pass over what is selected with these hands, and says how it ended.
pub fn pass<S: Selection, G: Gate, Rt: Abort + Threads + Wait + Sync>(
    rt: &Rt,
    alloc: Global,
    index: Unspared<SampleWorld>,
    hands: Vec<MemTree<SampleWorld>>,
    roots: &[&str],
    select: &mut S,
    gate: &G,
) -> (Unspared<SampleWorld>, String) {
    let Unspared { lock, seat } = index;
    let (seat, end) = pass_by(rt, alloc, &lock, seat, hands, roots, select, gate);
    (Unspared { lock, seat }, end)
}

/// The rows, one after the other.
pub fn held_rows<Rt: Abort + Wait>(
    rt: &Rt,
    alloc: Global,
    index: Unspared<SampleWorld>,
) -> (Unspared<SampleWorld>, String) {
    let Unspared { lock, seat } = index;
    let held = lock.enter(rt, seat);
    let text = rows_text(alloc, held.value().rows()).expect(rt, "memory");
    let seat = lock.leave(held);
    (Unspared { lock, seat }, text)
}

/// Makes the pass over what is selected, with so many hands beside its own, and compares.
pub fn share_one<S: Selection, Rt: Abort + Threads + Wait + Sync>(
    rt: &Rt,
    alloc: Global,
    index: Unspared<SampleWorld>,
    step: &Pass,
    others: u64,
    select: &mut S,
) -> Unspared<SampleWorld> {
    let hands = hands_of(rt, alloc, step, others);
    let (index, end) = pass(rt, alloc, index, hands, step.roots, select, &NoGate);
    let (index, rows) = held_rows(rt, alloc, index);
    compare(rt, alloc, step, end.as_str(), rows.as_str());
    index
}

/// Makes the passes over one index, with so many hands beside those of each.
fn share_passes<Rt: Abort + Threads + Wait + Sync>(
    rt: &Rt,
    alloc: Global,
    steps: &[Pass],
    others: u64,
) {
    let mut index = empty_shared(alloc, None).expect(rt, "an index");
    for step in steps {
        index = share_one(rt, alloc, index, step, others, &mut AllPaths);
    }
}

// One hand does all; then one looks for files and none reads, and then one, two, seven and 64 read
// twelve files.
#[test]
fn any_number_of_hands_does_the_same_over_a_lock(rt: HostRuntime) {
    for others in [0, 1, 2, 3, 8, 65] {
        share_passes(&rt, rt.alloc(), &WHOLE, others);
    }
}

#[test]
fn the_first_miss_of_its_own_is_told(rt: HostRuntime) {
    share_passes(&rt, rt.alloc(), &MISSED, 0);
}

#[test]
fn the_first_hand_tries_again_what_others_left(rt: HostRuntime) {
    share_passes(&rt, rt.alloc(), &MOVED, 0);
}

/// The end of a first pass over the reference tree with these hands, where the store stops at this
/// call; the end of a second pass, with one hand; and the number of rows by then.
fn two_passes<Rt: Abort + Threads + Wait + Sync>(
    rt: &Rt,
    alloc: Global,
    stop_at: Option<u64>,
    hands: Vec<MemTree<SampleWorld>>,
) -> (String, String, u64) {
    let index = empty_shared(alloc, stop_at).expect(rt, "an index");
    let (index, end) = pass(rt, alloc, index, hands, &FOLDERS, &mut AllPaths, &NoGate);
    let (index, then) = pass(
        rt,
        alloc,
        index,
        many(rt, alloc, 1),
        &FOLDERS,
        &mut AllPaths,
        &NoGate,
    );
    let Unspared { lock, seat } = index;
    let rows = taken(rt, Shared { lock, seat }).standing().rows;
    (end, then, rows)
}

/// Compares the ends of two passes, and the number of rows by then, with what they are to be, where
/// the store stops after so many puts of the first one, with five hands.
fn stops_after<Rt: Abort + Threads + Wait + Sync>(
    rt: &Rt,
    alloc: Global,
    puts: u64,
    wanted: (&str, &str, u64),
) {
    // The store's calls are the opening, the rows, and a put for each file.
    let stop_at = Some(puts.saturating_add(2));
    let (end, then, rows) = two_passes(rt, alloc, stop_at, many(rt, alloc, 5));
    assert!(rt;
        (end.as_str(), then.as_str(), rows) == wanted,
        "after {puts}"
    );
}

#[test]
fn a_store_that_failed_leaves_a_broken_index(rt: HostRuntime) {
    for puts in 0..12 {
        stops_after(&rt, rt.alloc(), puts, ("the store failed", "broken", puts));
    }
}

/// Compares the same, where one hand of five fails at a call in the first pass.
fn fails_at<Rt: Abort + Threads + Wait + Sync>(
    rt: &Rt,
    alloc: Global,
    hand: u64,
    call: u64,
    wanted: (&str, &str, u64),
) {
    let hands = one_fails(rt, alloc, hand, call);
    let (end, then, rows) = two_passes(rt, alloc, None, hands);
    assert!(rt;
        (end.as_str(), then.as_str(), rows) == wanted,
        "call {call} of hand {hand}"
    );
}

#[test]
fn a_hand_that_fails_beside_costs_nothing(rt: HostRuntime) {
    for call in 0..13 {
        let wanted = ("12 12 0 0 0 4 4", "12 0 0 0 12 4 4", 12);
        fails_at(&rt, rt.alloc(), 2, call, wanted);
    }
}

#[test]
fn a_first_hand_whose_walk_fails_leaves_the_index(rt: HostRuntime) {
    for call in 0..20 {
        let wanted = ("a call of the walk failed", "12 12 0 0 0 4 4", 12);
        fails_at(&rt, rt.alloc(), 0, call, wanted);
    }
}

#[test]
fn a_file_is_read_over_a_lock_while_another_is_held(rt: HostRuntime) {
    let alloc = rt.alloc();
    let gate = holding_gate(&rt, alloc);
    let index = empty_shared(alloc, None).expect(&rt, "an index");
    let (_, end) = pass(
        &rt,
        alloc,
        index,
        many(&rt, alloc, 4),
        &FOLDERS,
        &mut AllPaths,
        &gate,
    );
    assert!(rt; end.as_str() == "12 12 0 0 0 4 4", "{end}");
    assert!(rt; gate.met());
}
