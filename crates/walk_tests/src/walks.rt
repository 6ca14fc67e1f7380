//! What no clause says: that memory suffices, and what a walk finds in small trees.

ghost use Rattle.std.specs.Prelude.{◌≡◌, ◌&&◌, map, IsTrue};
ghost use Rattle.std.specs.List.{list_all};
ghost use Rattle.row_types.specs.Canon.{is_canonical};
ghost use Rattle.tree_trait.specs.Present.{are_distinct};
ghost use Rattle.tree_trait.specs.Script.{is_stage};

use path_scope::{AllPaths, Selection};
use row_types::{CanonPath, OpenWorld, Stamp};
use std::alloc::Global;
use std::process::Abort;
use tree_trait::{Found, MemTree, Script, Tree};
use tree_walk::{Walk, WalkFault, walk};

/// An empty file.
pub fn file_at(rt: &impl Abort, alloc: Global, path: &str) -> Found<OpenWorld>
    ensures { result.path ≡ path.now }
{
    let stamp = Stamp {
        size: 0,
        secs: 100,
        nanos: 0,
    };
    let path = String::from_str(alloc, path).expect(rt, "memory");
    Found::new(path, stamp, Vec::new(alloc))
}

/// Empty files at the paths.
fn files_at(rt: &impl Abort, alloc: Global, paths: &[&str]) -> Vec<Found<OpenWorld>>
    ensures { map (λ file. file.path) result.items ≡ map (λ path. path.now) paths.now }
{
    let mut files = Vec::new(alloc);
    for path in paths {
        files.push(file_at(rt, alloc, path)).expect(rt, "memory");
    }
    files
}

/// The tree of these files, of which the call of this number fails.
pub fn tree_of(
    rt: &impl Abort,
    alloc: Global,
    files: Vec<Found<OpenWorld>>,
    bad_call: u64,
) -> MemTree<OpenWorld>
    requires { IsTrue (is_stage files.items) }
{
    let script = Script {
        stages: vec![in alloc; files].expect(rt, "memory"),
        moves: Vec::new(alloc),
        bad_calls: vec![in alloc; bad_call].expect(rt, "memory"),
    };
    MemTree::new(alloc, script)
}

/// The tree of empty files at the paths, of which the call of this number fails.
pub fn tree_at(rt: &impl Abort, alloc: Global, paths: &[&str], bad_call: u64) -> MemTree<OpenWorld>
    requires { let texts = map (λ path. path.now) paths.now in
        IsTrue (list_all is_canonical texts && are_distinct texts) }
{
    let files = files_at(rt, alloc, paths);
    tree_of(rt, alloc, files, bad_call)
}

/// Twelve files under three folders. The call of this number fails.
fn three_folders(rt: &impl Abort, alloc: Global, bad_call: u64) -> MemTree<OpenWorld> {
    let paths = [
        "/srv/bin/prog",
        "/srv/bin/tool",
        "/srv/bin/libx.so",
        "/srv/bin/liby.so",
        "/srv/bin/run.sh",
        "/srv/bin/empty",
        "/srv/debug/tool.debug",
        "/srv/debug/ppc.debug",
        "/srv/debug/notes.txt",
        "/w/src/main.c",
        "/w/src/inc/util.h",
        "/w/README",
    ];
    tree_at(rt, alloc, &paths, bad_call)
}

/// The paths of these texts.
pub fn paths_of(rt: &impl Abort, alloc: Global, texts: &[&str]) -> Vec<CanonPath> {
    let mut paths = Vec::new(alloc);
    for text in texts {
        let text = String::from_str(alloc, text).expect(rt, "memory");
        let path = CanonPath::check(text).ok().expect(rt, "a canonical path");
        paths.push(path).expect(rt, "memory");
    }
    paths
}

/// How many entries a walk passed over, and the files that it listed.
fn found_text(rt: &impl Abort, alloc: Global, found: &Walk) -> String {
    let mut text = format!(in alloc; "{}", found.skipped).expect(rt, "memory");
    for name in found.listing.names() {
        text.push_str(" ").expect(rt, "memory");
        text.push_str(name.path.text()).expect(rt, "memory");
    }
    text
}

/// Why a walk ended early.
fn fault_text(rt: &impl Abort, alloc: Global, fault: &WalkFault) -> String {
    let text = match fault {
        WalkFault::RootGone(path) => format!(in alloc; "nothing at {}", path.text()),
        WalkFault::Failed => String::from_str(alloc, "failed"),
        WalkFault::OutOfMemory => String::from_str(alloc, "no memory"),
        _ => String::from_str(alloc, "another fault"),
    };
    text.expect(rt, "memory")
}

/// What a walk finds of what is selected.
pub fn walk_text<T: Tree<OpenWorld>, S: Selection>(
    rt: &impl Abort,
    alloc: Global,
    hand: &mut T,
    roots: &[CanonPath],
    select: &mut S,
) -> String {
    match walk(alloc, hand, roots, select) {
        Ok(found) => found_text(rt, alloc, &found),
        Err(fault) => fault_text(rt, alloc, &fault),
    }
}

/// Walks, and compares what is found.
fn finds<T: Tree<OpenWorld>>(
    rt: &impl Abort,
    alloc: Global,
    hand: &mut T,
    roots: &[&str],
    want: &str,
) {
    let paths = paths_of(rt, alloc, roots);
    let text = walk_text(rt, alloc, hand, paths.as_slice(), &mut AllPaths);
    assert!(rt; text.as_str() == want, "{roots:?}: {text}");
}

/// The roots, the number of the call that fails, and what the walk finds.
type Case = (&'static [&'static str], u64, &'static str);

static CASES: [Case; 5] = [
    (
        &["/srv/bin", "/srv/debug", "/w"],
        99,
        "0 /srv/bin/empty /srv/bin/libx.so /srv/bin/liby.so /srv/bin/prog /srv/bin/run.sh \
         /srv/bin/tool /srv/debug/notes.txt /srv/debug/ppc.debug /srv/debug/tool.debug \
         /w/README /w/src/inc/util.h /w/src/main.c",
    ),
    (
        &["/srv/debug", "/srv", "/srv/debug"],
        99,
        "0 /srv/bin/empty /srv/bin/libx.so /srv/bin/liby.so /srv/bin/prog /srv/bin/run.sh \
         /srv/bin/tool /srv/debug/notes.txt /srv/debug/ppc.debug /srv/debug/tool.debug",
    ),
    (&["/srv/bin/tool"], 99, "0 /srv/bin/tool"),
    (&["/srv", "/none"], 99, "nothing at /none"),
    (&["/srv"], 1, "failed"),
];

#[test]
fn a_walk_lists_the_files_under_its_roots_by_path(rt: HostRuntime) {
    let alloc = rt.alloc();
    for (roots, bad_call, want) in &CASES {
        let mut tree = three_folders(&rt, alloc, *bad_call);
        finds(&rt, alloc, &mut tree, roots, want);
    }
}
