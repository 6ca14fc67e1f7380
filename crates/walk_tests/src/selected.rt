//! What a walk finds of what is selected, and what it asks.

ghost use Rattle.std.specs.Prelude.{IsTrue};
ghost use Rattle.std.specs.String.{string_bytes};
ghost use Rattle.row_types.specs.Canon.{is_canonical};

mod noted;

use crate::selected::noted::Noted;
use crate::walks::{file_at, paths_of, tree_at, tree_of, walk_text};
use path_scope::{AllPaths, Selection};
use row_types::{OpenWorld, is_canonical};
use sample_rows::Chosen;
use std::alloc::Global;
use std::process::Abort;
use tree_trait::MemTree;

/// The files of a tree.
#[derive(Clone, Copy)]
enum Files {
    /// `/srv/z`, and two in a folder of a folder.
    Nested,
    /// Six in one folder.
    Six,
}

/// The tree of these files.
fn tree(rt: &impl Abort, alloc: Global, files: Files) -> MemTree<OpenWorld> {
    match files {
        Files::Nested => tree_at(rt, alloc, &["/srv/a/b/x", "/srv/a/b/y", "/srv/z"], 99),
        Files::Six => tree_at(
            rt,
            alloc,
            &["/w/a", "/w/b", "/w/c", "/w/d", "/w/e", "/w/f"],
            99,
        ),
    }
}

/// A walk, and what it comes to.
struct Case {
    /// What the case shows.
    shows: &'static str,
    /// The files of the tree.
    files: Files,
    /// The roots.
    roots: &'static [&'static str],
    /// The paths that are selected.
    chosen: &'static [&'static str],
    /// The number of the question of the selection that wants memory.
    wants: u64,
    /// How many entries are passed over and which files are listed, or why the walk ends early.
    found: &'static str,
    /// What the tree is asked.
    asked: &'static str,
}

/// A question that isn't put.
const NONE: u64 = 99;

// A root is looked at, each folder is read, and a file is looked at where it is selected.
static CASES: [Case; 16] = [
    Case {
        shows: "a file is found in folders of which none is selected",
        files: Files::Nested,
        roots: &["/srv"],
        chosen: &["/srv/a/b/y"],
        wants: NONE,
        found: "0 /srv/a/b/y",
        asked: "look /srv, read /srv, read /srv/a, read /srv/a/b, look /srv/a/b/y, ",
    },
    Case {
        shows: "folders that are selected select nothing in them",
        files: Files::Nested,
        roots: &["/srv"],
        chosen: &["/srv", "/srv/a", "/srv/a/b"],
        wants: NONE,
        found: "0",
        asked: "look /srv, read /srv, read /srv/a, read /srv/a/b, ",
    },
    Case {
        shows: "a root that is a file is listed where it is selected",
        files: Files::Nested,
        roots: &["/srv/z"],
        chosen: &["/srv/z"],
        wants: NONE,
        found: "0 /srv/z",
        asked: "look /srv/z, ",
    },
    Case {
        shows: "it isn't where it isn't selected",
        files: Files::Nested,
        roots: &["/srv/z"],
        chosen: &["/srv"],
        wants: NONE,
        found: "0",
        asked: "look /srv/z, ",
    },
    Case {
        shows: "a file that is a root is listed once, and not looked at again in its folder",
        files: Files::Nested,
        roots: &["/srv/z", "/srv"],
        chosen: &["/srv/z"],
        wants: NONE,
        found: "0 /srv/z",
        asked: "look /srv/z, look /srv, read /srv, read /srv/a, read /srv/a/b, ",
    },
    Case {
        shows: "a root that isn't selected isn't listed in its folder either",
        files: Files::Nested,
        roots: &["/srv", "/srv/z"],
        chosen: &["/srv/a/b/x"],
        wants: NONE,
        found: "0 /srv/a/b/x",
        asked: "look /srv, look /srv/z, read /srv, read /srv/a, read /srv/a/b, look /srv/a/b/x, ",
    },
    Case {
        shows: "a folder that is twice a root is read once",
        files: Files::Nested,
        roots: &["/srv/a", "/srv/a"],
        chosen: &["/srv/a/b/x", "/srv/z"],
        wants: NONE,
        found: "0 /srv/a/b/x",
        asked: "look /srv/a, look /srv/a, read /srv/a, read /srv/a/b, look /srv/a/b/x, ",
    },
    Case {
        shows: "a file that is twice a root is listed once",
        files: Files::Nested,
        roots: &["/srv/z", "/srv/z"],
        chosen: &["/srv/z"],
        wants: NONE,
        found: "0 /srv/z",
        asked: "look /srv/z, look /srv/z, ",
    },
    Case {
        shows: "nothing at a root ends a walk, whether it is selected or not",
        files: Files::Nested,
        roots: &["/none", "/srv"],
        chosen: &[],
        wants: NONE,
        found: "nothing at /none",
        asked: "look /none, ",
    },
    Case {
        shows: "six files are looked at where six are selected",
        files: Files::Six,
        roots: &["/w"],
        chosen: &["/w/a", "/w/b", "/w/c", "/w/d", "/w/e", "/w/f"],
        wants: NONE,
        found: "0 /w/a /w/b /w/c /w/d /w/e /w/f",
        asked: "look /w, read /w, look /w/a, look /w/b, look /w/c, look /w/d, look /w/e, look /w/f, ",
    },
    Case {
        shows: "three where three are",
        files: Files::Six,
        roots: &["/w"],
        chosen: &["/w/f", "/w/d", "/w/b"],
        wants: NONE,
        found: "0 /w/b /w/d /w/f",
        asked: "look /w, read /w, look /w/b, look /w/d, look /w/f, ",
    },
    Case {
        shows: "none where none is",
        files: Files::Six,
        roots: &["/w"],
        chosen: &[],
        wants: NONE,
        found: "0",
        asked: "look /w, read /w, ",
    },
    Case {
        shows: "memory is wanted behind the look at a root",
        files: Files::Nested,
        roots: &["/srv/z", "/srv"],
        chosen: &["/srv/z", "/srv/a/b/x", "/srv/a/b/y"],
        wants: 0,
        found: "no memory",
        asked: "look /srv/z, ",
    },
    Case {
        shows: "memory is wanted before the first look at an entry",
        files: Files::Nested,
        roots: &["/srv/z", "/srv"],
        chosen: &["/srv/z", "/srv/a/b/x", "/srv/a/b/y"],
        wants: 1,
        found: "no memory",
        asked: "look /srv/z, look /srv, read /srv, read /srv/a, read /srv/a/b, ",
    },
    Case {
        shows: "memory is wanted before the last look",
        files: Files::Nested,
        roots: &["/srv/z", "/srv"],
        chosen: &["/srv/z", "/srv/a/b/x", "/srv/a/b/y"],
        wants: 2,
        found: "no memory",
        asked: "look /srv/z, look /srv, read /srv, read /srv/a, read /srv/a/b, look /srv/a/b/x, ",
    },
    Case {
        shows: "three questions are all that are put",
        files: Files::Nested,
        roots: &["/srv/z", "/srv"],
        chosen: &["/srv/z", "/srv/a/b/x", "/srv/a/b/y"],
        wants: 3,
        found: "0 /srv/a/b/x /srv/a/b/y /srv/z",
        asked: "look /srv/z, look /srv, read /srv, read /srv/a, read /srv/a/b, look /srv/a/b/x, \
                look /srv/a/b/y, ",
    },
];

/// What a walk of the tree finds under these roots, and what the tree is asked.
fn walked<S: Selection>(
    rt: &impl Abort,
    alloc: Global,
    tree: MemTree<OpenWorld>,
    roots: &[&str],
    select: &mut S,
) -> (String, String) {
    let mut hand = Noted {
        tree,
        asked: String::new(alloc),
    };
    let roots = paths_of(rt, alloc, roots);
    let found = walk_text(rt, alloc, &mut hand, roots.as_slice(), select);
    (found, hand.asked)
}

/// Makes the walk of a case, and compares.
fn run_case(rt: &impl Abort, alloc: Global, case: &Case) {
    let mut select = Chosen::new(case.chosen, case.wants);
    let tree = tree(rt, alloc, case.files);
    let (found, asked) = walked(rt, alloc, tree, case.roots, &mut select);
    assert!(rt; found.as_str() == case.found, "{}: {found}", case.shows);
    assert!(rt; asked.as_str() == case.asked, "{}: {asked}", case.shows);
}

#[test]
fn a_walk_looks_at_the_selected_files_alone(rt: HostRuntime) {
    for case in &CASES {
        run_case(&rt, rt.alloc(), case);
    }
}

/// A path of so many bytes under `/w`.
fn long_path(rt: &impl Abort, alloc: Global, len: usize) -> String
    ensures { IsTrue (is_canonical (string_bytes result)) }
{
    let mut path = String::from_str(alloc, "/w/").expect(rt, "memory");
    for _ in 3..len {
        path.push_str("x").expect(rt, "memory");
    }
    assert!(rt; is_canonical(path.as_str()), "a canonical path");
    path
}

/// The tree of an empty file whose path has so many bytes.
fn long_tree(rt: &impl Abort, alloc: Global, len: usize) -> MemTree<OpenWorld> {
    let path = long_path(rt, alloc, len);
    let files = vec![in alloc; file_at(rt, alloc, path.as_str())].expect(rt, "memory");
    tree_of(rt, alloc, files, 99)
}

/// How many questions stand in the text.
fn questions(asked: &str) -> usize {
    asked.as_bytes().iter().filter(|b| **b == b',').count()
}

/// What a walk finds of an empty file under `/w` whose path has so many bytes, but for the last of
/// them, and how many questions the tree is asked.
fn long_walk<S: Selection>(
    rt: &impl Abort,
    alloc: Global,
    len: usize,
    select: &mut S,
) -> (String, usize) {
    let tree = long_tree(rt, alloc, len);
    let (found, asked) = walked(rt, alloc, tree, &["/w"], select);
    let text = String::from_str(alloc, found.as_str().trim_end_matches('x')).expect(rt, "memory");
    (text, questions(asked.as_str()))
}

/// Makes the walk where each path is selected, and compares.
fn takes_long(rt: &impl Abort, alloc: Global, len: usize, wanted: (&str, usize)) {
    let (found, asked) = long_walk(rt, alloc, len, &mut AllPaths);
    assert!(rt; (found.as_str(), asked) == wanted, "{len}: {found} {asked}");
}

/// Makes the walk where no path is selected, and compares. The last number is that of the questions
/// that the selection is asked.
fn leaves_long(rt: &impl Abort, alloc: Global, len: usize, wanted: (&str, usize, u64)) {
    let mut select = Chosen::new(&[], NONE);
    let (found, asked) = long_walk(rt, alloc, len, &mut select);
    assert!(rt;
        (found.as_str(), asked, select.asked) == wanted,
        "{len}: {found} {asked}"
    );
}

// The longest path that is kept has 4096 bytes. A longer one is passed over, selected or not.
#[test]
fn a_path_that_is_too_long_is_not_asked_for(rt: HostRuntime) {
    let alloc = rt.alloc();
    takes_long(&rt, alloc, 4096, ("0 /w/", 3));
    takes_long(&rt, alloc, 4097, ("1", 2));
    leaves_long(&rt, alloc, 4096, ("0", 2, 1));
    leaves_long(&rt, alloc, 4097, ("1", 2, 0));
}
