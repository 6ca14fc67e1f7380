//! Searches with a cache, links and an output in memory: how each ends, what is written, what the cache and
//! the links are asked, and what the cache holds then.

mod files;
mod parts;
mod rig;

use crate::searches::files::{FETCHED, HELD, UNFOUND};
use crate::searches::parts::{SECTIONS, SOURCES};
use crate::searches::rig::{Bad, Case, Said, Sample, Wanted, again, called, objects_of, run};
use find_client::FindEnd;
use std::alloc::Global;
use std::process::Abort;
use std::sync::Wait;

/// Searches by a case over objects of its own.
fn run_case<R: Abort + Wait + Sync>(rt: &R, alloc: Global, case: &Case) {
    let mut objects = objects_of(rt, alloc, case);
    run(rt, alloc, case, &mut objects);
}

/// Searches by each of these cases.
fn run_cases<R: Abort + Wait + Sync>(rt: &R, alloc: Global, cases: &[Case]) {
    for case in cases {
        run_case(rt, alloc, case);
    }
}

#[test]
fn a_value_that_is_held_counts_where_it_passes(rt: HostRuntime) {
    run_cases(&rt, rt.alloc(), &HELD);
}

#[test]
fn a_file_that_a_link_has_is_kept(rt: HostRuntime) {
    run_cases(&rt, rt.alloc(), &FETCHED);
}

#[test]
fn a_search_in_vain_ends_by_what_failed(rt: HostRuntime) {
    run_cases(&rt, rt.alloc(), &UNFOUND);
}

#[test]
fn a_section_is_of_the_debug_file_first(rt: HostRuntime) {
    run_cases(&rt, rt.alloc(), &SECTIONS);
}

#[test]
fn a_source_is_of_links_alone(rt: HostRuntime) {
    run_cases(&rt, rt.alloc(), &SOURCES);
}

/// A link that has the program, and then a search with no link.
static FIRST: Case = Case {
    says: "the first search",
    wanted: Wanted::Executable,
    held: &[],
    links: &[&[Said::Reply(200, Sample::Program)]],
    bad: Bad(&[], &[]),
    end: FindEnd::Fetched,
    written: (Sample::Program, 408),
    calls: "get executable: absent\nput executable 408: done\n",
    kept: &[("executable", Sample::Program)],
    asked: &[&["executable"]],
};

static SECOND: Case = Case {
    says: "the second search",
    wanted: Wanted::Executable,
    held: &[],
    links: &[],
    bad: Bad(&[], &[]),
    end: FindEnd::Cached,
    written: (Sample::Program, 408),
    calls: "get executable: absent\nput executable 408: done\nget executable: 408\n",
    kept: &[("executable", Sample::Program)],
    asked: &[],
};

/// Searches with the link, and then with none, over one cache; gives what the cache tells of its calls.
fn run_both<R: Abort + Wait + Sync>(rt: &R, alloc: Global) -> String {
    let mut objects = objects_of(rt, alloc, &FIRST);
    run(rt, alloc, &FIRST, &mut objects);
    again(rt, alloc, &SECOND, &mut objects);
    run(rt, alloc, &SECOND, &mut objects);
    called(rt, alloc, &objects.cache)
}

#[test]
fn what_was_fetched_is_found_again_with_no_link(rt: HostRuntime) {
    let calls = run_both(&rt, rt.alloc());
    assert!(rt;
        calls.as_str() == "get executable, put executable: done, get executable, ",
        "{calls}"
    );
}
