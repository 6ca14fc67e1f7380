//! Answers in a told world, by a hand that tells what it has: what the clauses on such hands say
//! is met by real readings.

use crate::answers::helpers::{Case, Wanted, answer_to};
use sample_files::{ID_A, ID_B, ID_C};
use sample_index::reference_index;
use sample_world::{SampleWorld, reference_script};
use std::alloc::Global;
use std::process::Abort;
use tree_trait::MemTree;

/// The hand of the reference tree, of which the calls of these numbers fail.
fn hand(rt: &impl Abort, alloc: Global, bad_calls: &[u64]) -> MemTree<SampleWorld> {
    let bad_calls = Vec::from_slice(alloc, bad_calls).expect(rt, "memory");
    MemTree::new(
        alloc,
        reference_script(alloc, bad_calls).expect(rt, "memory"),
    )
}

/// What is read of the program with the id B, of 1016 bytes: the header (64), ten section headers
/// (640), their names (120) and the note (36).
const OF_PROG: &str = "file /srv/bin/prog 860 of 1016 at 12";

/// The program with the id B was made from `/w/src/main.c`. A file is asked by its opening and by the
/// reads of its four windows, calls 0 to 4. For a section `/srv/debug/tool.debug` is asked so, and then
/// `/srv/bin/tool` by calls 5 to 9, and for its code, which is no window, by call 10.
static CASES: [Case; 13] = [
    Case(
        &ID_C,
        Wanted::Code,
        &["/w"],
        &[],
        "file /srv/bin/tool 392 of 408 at 12",
    ),
    Case(&ID_C, Wanted::Code, &["/w"], &[0], "fault at 12"),
    Case(&ID_C, Wanted::Code, &["/w"], &[4], "fault at 12"),
    Case(
        &ID_C,
        Wanted::Debug,
        &["/w"],
        &[],
        "file /srv/debug/tool.debug 542 of 584 at 12",
    ),
    Case(&ID_B, Wanted::Code, &["/w"], &[], OF_PROG),
    Case(&ID_B, Wanted::Debug, &["/w"], &[], OF_PROG),
    Case(
        &ID_C,
        Wanted::Part(b".text"),
        &["/w"],
        &[],
        "section /srv/bin/tool 1 at 12",
    ),
    Case(&ID_C, Wanted::Part(b".text"), &["/w"], &[5], "fault at 12"),
    Case(&ID_C, Wanted::Part(b".text"), &["/w"], &[10], "fault at 12"),
    Case(
        &ID_C,
        Wanted::Part(b".debug_zz"),
        &["/w"],
        &[],
        "nothing at 12",
    ),
    Case(
        &ID_B,
        Wanted::Text("/w/src/main.c"),
        &["/w"],
        &[],
        "source /w/src/main.c 26 at 12",
    ),
    Case(
        &ID_A,
        Wanted::Text("/w/src/main.c"),
        &["/w"],
        &[],
        "nothing at 12",
    ),
    Case(b"no such id", Wanted::Debug, &["/w"], &[], "nothing at 12"),
];

#[test]
fn the_files_of_a_told_world_answer(rt: HostRuntime) {
    let alloc = rt.alloc();
    for case in &CASES {
        let mut hand = hand(&rt, alloc, case.3);
        let index = reference_index(alloc).expect(&rt, "an index");
        let text = answer_to(&rt, alloc, index, &mut hand, case);
        assert!(rt; text.as_str() == case.4, "{text} for {}", case.4);
    }
}
