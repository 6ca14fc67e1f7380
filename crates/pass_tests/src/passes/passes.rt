//! Passes over one index, one after the other.

use crate::passes::ends::end_text;
use crate::rig::{Files, sample_tree};
use elf_reading::ElfReader;
use pass_runner::scan_state;
use path_scope::{AllPaths, Selection};
use sample_index::{Index, empty_index};
use sample_rows::{paths, rows_text};
use sample_world::SampleWorld;
use std::alloc::Global;
use std::process::Abort;
use std::sync::Wait;
use std::thread::Threads;
use tree_trait::{Gate, MemTree, NoGate};

/// What a hand has, and the calls of it that fail.
pub struct Holds {
    /// The files of its tree.
    pub files: Files,
    /// The call from which on the tree has other files.
    pub later: Option<(u64, Files)>,
    /// The calls that fail. One that must not be made is among them.
    pub bad_calls: &'static [u64],
}

/// A pass, and what it comes to.
pub struct Pass {
    /// What it shows.
    pub shows: &'static str,
    /// The hands, in order.
    pub hands: &'static [Holds],
    /// The folders.
    pub roots: &'static [&'static str],
    /// How it ends.
    pub end: &'static str,
    /// The rows by then, one after the other.
    pub rows: &'static [&'static str],
}

/// The hands of a pass, and so many more that have the files of the first one.
pub fn hands_of(
    rt: &impl Abort,
    alloc: Global,
    pass: &Pass,
    others: u64,
) -> Vec<MemTree<SampleWorld>> {
    let mut trees = Vec::new(alloc);
    for hand in pass.hands {
        let tree = sample_tree(rt, alloc, hand.files, hand.later, hand.bad_calls);
        trees.push(tree).expect(rt, "memory");
    }
    if let Some(first) = pass.hands.first() {
        for _ in 0..others {
            let tree = sample_tree(rt, alloc, first.files, None, &[]);
            trees.push(tree).expect(rt, "memory");
        }
    }
    trees
}

/// The texts, one after the other.
fn joined(rt: &impl Abort, alloc: Global, texts: &[&str]) -> String {
    let mut all = String::new(alloc);
    for text in texts {
        all.push_str(text).expect(rt, "memory");
    }
    all
}

/// Compares how a pass ended, and the rows by then, with what it is to come to.
pub fn compare(rt: &impl Abort, alloc: Global, pass: &Pass, end: &str, rows: &str) {
    assert!(rt; end == pass.end, "{}: {end}", pass.shows);
    let wanted = joined(rt, alloc, pass.rows);
    assert!(rt; rows == wanted.as_str(), "{}: {rows}", pass.shows);
}

/// Makes a pass over what is selected with these hands, and says how it ended.
pub fn run_hands<S: Selection, G: Gate, Rt: Abort + Threads + Wait + Sync>(
    rt: &Rt,
    alloc: Global,
    index: Index<SampleWorld>,
    hands: Vec<MemTree<SampleWorld>>,
    roots: &[&str],
    select: &mut S,
    gate: &G,
) -> (Index<SampleWorld>, String) {
    let count = hands.len();
    assert!(rt; count > 0, "there is a hand");
    assert!(rt; !index.standing().broken, "the index isn't broken");
    let roots = paths(alloc, roots).expect(rt, "paths");
    let (index, hands, end) = scan_state(
        rt,
        alloc,
        index,
        hands,
        roots.as_slice(),
        select,
        &ElfReader,
        gate,
    );
    assert!(rt; hands.len() == count, "all hands come back");
    (index, end_text(rt, alloc, &end))
}

/// Makes the pass over what is selected, with so many hands beside its own, and compares.
pub fn run_one<S: Selection, Rt: Abort + Threads + Wait + Sync>(
    rt: &Rt,
    alloc: Global,
    index: Index<SampleWorld>,
    pass: &Pass,
    others: u64,
    select: &mut S,
) -> Index<SampleWorld> {
    let hands = hands_of(rt, alloc, pass, others);
    let (index, end) = run_hands(rt, alloc, index, hands, pass.roots, select, &NoGate);
    let rows = rows_text(alloc, index.rows()).expect(rt, "memory");
    compare(rt, alloc, pass, end.as_str(), rows.as_str());
    index
}

/// Makes the passes over one index, with so many hands beside those of each.
pub fn run_passes<Rt: Abort + Threads + Wait + Sync>(
    rt: &Rt,
    alloc: Global,
    passes: &[Pass],
    others: u64,
) {
    let mut index = empty_index(alloc, None).expect(rt, "an index");
    for pass in passes {
        index = run_one(rt, alloc, index, pass, others, &mut AllPaths);
    }
}
