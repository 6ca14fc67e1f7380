//! A selection, and the same one with its matchers made once.

use crate::patterns::path_of;
use path_canon::{Matching, Select, Selection};
use row_types::CanonPath;
use std::alloc::Global;
use std::process::Abort;

/// What is included and excluded, and whether `/srv/tool.debug` is selected: what is excluded has no match,
/// and what is included has one.
static SELECTIONS: [(Option<&str>, Option<&str>, bool); 12] = [
    (None, None, true),
    (Some("tool"), None, true),
    (Some("x"), None, false),
    (None, Some("tool"), false),
    (None, Some("x"), true),
    (Some("tool"), Some("debug"), false),
    (Some("tool"), Some("x"), true),
    (Some("x"), Some("tool"), false),
    (Some("x"), Some("y"), false),
    (Some("tool"), Some("tool"), false),
    (None, Some(""), false),
    (Some(""), None, true),
];

/// The selection of these texts.
fn select_of(
    rt: &impl Abort,
    alloc: Global,
    include: Option<&str>,
    exclude: Option<&str>,
) -> Select {
    Select::new(alloc, include, exclude).expect(rt, "two patterns")
}

/// Whether the selection of these texts takes the path.
fn takes(
    rt: &impl Abort,
    alloc: Global,
    include: Option<&str>,
    exclude: Option<&str>,
    path: &CanonPath,
) -> bool {
    let mut select = select_of(rt, alloc, include, exclude);
    select.selects(alloc, path).expect(rt, "memory")
}

#[test]
fn what_is_excluded_wins(rt: HostRuntime) {
    let path = path_of(&rt, rt.alloc(), "/srv/tool.debug");
    for (include, exclude, want) in &SELECTIONS {
        let selected = takes(&rt, rt.alloc(), *include, *exclude, &path);
        assert!(rt; selected == *want, "{include:?} {exclude:?}");
    }
}

/// Pieces of generated paths.
static PIECES: [&str; 8] = [
    "/srv",
    "/a",
    "/b.debug",
    "/tool",
    "/é",
    "/x1",
    "/lib-2.so",
    "/\n",
];

/// The path of three pieces, by the digits of a number to the base 8.
fn generated(rt: &impl Abort, alloc: Global, number: usize) -> CanonPath {
    let mut text = String::new(alloc);
    for place in [1, 8, 64] {
        text.push_str(PIECES[number / place % 8])
            .expect(rt, "memory");
    }
    path_of(rt, alloc, text.as_str())
}

/// Whether each takes the path.
fn both_take(
    rt: &impl Abort,
    alloc: Global,
    select: &mut Select,
    matching: &mut Matching<'_>,
    path: &CanonPath,
) -> (bool, bool) {
    let one = select.selects(alloc, path).expect(rt, "memory");
    let other = matching.selects(alloc, path).expect(rt, "memory");
    (one, other)
}

/// Asks both for each of 512 generated paths, and counts those that are taken.
fn count_taken(
    rt: &impl Abort,
    alloc: Global,
    select: &mut Select,
    matching: &mut Matching<'_>,
) -> u64 {
    let mut count = 0u64;
    for number in 0..512 {
        let path = generated(rt, alloc, number);
        let (one, other) = both_take(rt, alloc, select, matching, &path);
        assert!(rt; one == other, "at {number}");
        count = count.saturating_add(u64::from(one));
    }
    count
}

/// How many of the generated paths both selections of these texts take.
fn taken(rt: &impl Abort, alloc: Global, include: Option<&str>, exclude: Option<&str>) -> u64 {
    let mut select = select_of(rt, alloc, include, exclude);
    let other = select_of(rt, alloc, include, exclude);
    let mut matching = other.matching(alloc).expect(rt, "memory");
    count_taken(rt, alloc, &mut select, &mut matching)
}

// Of eight pieces at each of three places: all 8^3; 8^2 end in one of them; 7^3 don't have it; 4^3 have
// letters alone; one of them first and no other last are 8 * 7; two of them first and last are 8.
static COUNTS: [(Option<&str>, Option<&str>, u64); 8] = [
    (None, None, 512),
    (Some(r"\.debug$"), None, 64),
    (Some("/tool"), None, 169),
    (None, Some("/tool"), 343),
    (Some("^/srv/"), Some(r"\.debug$"), 56),
    (Some(r"^(/\pL+){3}$"), None, 64),
    (Some("(?s)^/srv.*/\n$"), None, 8),
    (Some(r"\.so(/|$)"), Some(r"[[:digit:]]"), 0),
];

#[test]
fn matchers_that_are_made_once_answer_as_those_made_anew(rt: HostRuntime) {
    for (include, exclude, want) in &COUNTS {
        let count = taken(&rt, rt.alloc(), *include, *exclude);
        assert!(rt; count == *want, "{include:?} {exclude:?}: {count}");
    }
}
