//! Walks over an index in holds: what a step looks at, and what is found in the end, where the index
//! changes between two steps, in front of the place that was reached or behind it.

use index_state::Published;
use row_types::{Name, OpenWorld, TrueRow};
use row_walk::{Found, Looked, RowWalk, Wants, walk_all};
use sample_index::{Index, Shared, begin, empty_index, put_behind};
use sample_rows::{elf, name, plain, row};
use scan_queue::Seen;
use std::alloc::Global;
use std::process::Abort;
use std::sync::Wait;

/// The files, by number: `/f/100` and so on. One hold sees 256 of them.
const FIRST: u64 = 100;

const BEHIND_LAST: u64 = 400;

/// What is done to a file, or beside it, between two steps.
#[derive(Clone, Copy, PartialEq, Eq)]
enum How {
    /// Nothing.
    Stays,
    /// A file whose path goes on from its own is added.
    Added,
    /// It is replaced by a file with debug information.
    Replaced,
    /// It is replaced by a file that isn't wanted.
    Emptied,
    /// It is dropped.
    Dropped,
}

/// What is wanted: files with an identity.
struct Identified;

impl Wants for Identified {
    ghost use Rattle.std.specs.Prelude.{is_some};

    ghost wants = { λ _ found. is_some found.ident };

    fn wants(&self, found: &Found) -> bool {
        found.ident.is_some()
    }
}

/// The size of a file, which says what it is found to be.
fn size_of(how: How) -> u64 {
    match how {
        How::Stays | How::Added | How::Dropped => 1,
        How::Replaced => 2,
        How::Emptied => 3,
    }
}

/// The name of the file of this number, with more behind it.
fn numbered(rt: &impl Abort, alloc: Global, number: u64, more: &str, size: u64) -> Name {
    let text = format!(in alloc; "/f/{number}{more}").expect(rt, "memory");
    name(alloc, text.as_str(), size).expect(rt, "a name")
}

/// The names by path, where this is done to the file of a number.
fn listed(rt: &impl Abort, alloc: Global, at: u64, how: How) -> Vec<Name> {
    let mut names = Vec::new(alloc);
    for number in FIRST..BEHIND_LAST {
        let done = if number == at { how } else { How::Stays };
        if done != How::Dropped {
            names
                .push(numbered(rt, alloc, number, "", size_of(done)))
                .expect(rt, "memory");
        }
        if done == How::Added {
            names
                .push(numbered(rt, alloc, number, "a", 1))
                .expect(rt, "memory");
        }
    }
    names
}

/// The row of a name: of a file with code, with debug information too, or of no ELF file.
fn row_of(rt: &impl Abort, alloc: Global, name: &Name) -> TrueRow<OpenWorld> {
    let (text, size) = (name.path.text(), name.stamp.size);
    if size == 3 {
        return plain(alloc, text, size).expect(rt, "a row");
    }
    let found = elf(alloc, &[7, 7], true, size == 2, &[]).expect(rt, "an ELF file");
    row(alloc, text, size, found).expect(rt, "a row")
}

/// Makes the index one of these names.
fn pass_over(rt: &impl Abort, alloc: Global, index: &mut Index<OpenWorld>, names: Vec<Name>) {
    let _plan = begin(alloc, index, names, "/f").expect(rt, "a pass");
    for _ in FIRST..BEHIND_LAST {
        publish_next(rt, alloc, index);
    }
    for _ in FIRST..BEHIND_LAST {
        if let Some(task) = index.groom_take() {
            let _judged = index.judge(alloc, &task.name, Seen::Gone);
        }
    }
    let standing = index.standing();
    assert!(rt; (standing.todo, standing.out, standing.groom, standing.missed) == (0, 0, 0, 0));
}

/// Publishes the row of the next name, if one is left.
fn publish_next(rt: &impl Abort, alloc: Global, index: &mut Index<OpenWorld>) {
    if let Some(name) = index.take() {
        let said = index.publish(alloc, row_of(rt, alloc, &name));
        assert!(rt; said == Published::Added || said == Published::Replaced);
    }
}

/// The index of all files.
fn all_files(rt: &impl Abort, alloc: Global) -> Index<OpenWorld> {
    let mut index = empty_index(alloc, None).expect(rt, "an index");
    pass_over(rt, alloc, &mut index, listed(rt, alloc, FIRST, How::Stays));
    index
}

/// What was looked at: whether it is the next rows, how many rows or paths, and how many changes of
/// the log were heard of.
fn counts(looked: &Looked) -> (bool, usize, usize) {
    match looked {
        Looked::Mended { looks, heard } => (false, looks.len(), *heard),
        Looked::Copied { rows, place: _ } => (true, rows.len(), 0),
    }
}

/// The walk once it has looked at the index, and has looked at so much.
fn stepped(
    rt: &impl Abort,
    index: &Index<OpenWorld>,
    walk: RowWalk,
    want: (bool, usize, usize),
) -> RowWalk {
    let looked = walk.look(index).expect(rt, "memory");
    let counts = counts(&looked);
    assert!(rt; counts == want);
    walk.take_in(looked, &Identified).expect(rt, "memory")
}

/// Whether the file of this path has debug information, if it was found.
fn debug_of(walk: &RowWalk, text: &str) -> Option<bool> {
    for found in walk.found() {
        if found.path.text() == text
            && let Some(ident) = found.ident
        {
            return Some(ident.debug);
        }
    }
    None
}

/// What is done to the file of a number once a first hold has seen those up to `/f/355`; how many
/// paths are looked up again then, how many rows are left behind the place, and how many files are
/// found in the end.
static CASES: [(u64, How, usize, usize, usize); 11] = [
    (110, How::Added, 1, 44, 301),
    (110, How::Replaced, 1, 44, 300),
    (110, How::Emptied, 1, 44, 299),
    (110, How::Dropped, 1, 44, 299),
    (355, How::Added, 0, 45, 301),
    (355, How::Replaced, 1, 44, 300),
    (355, How::Dropped, 1, 44, 299),
    (380, How::Added, 0, 45, 301),
    (380, How::Replaced, 0, 44, 300),
    (380, How::Emptied, 0, 44, 299),
    (380, How::Dropped, 0, 43, 299),
];

/// What is to be found of it then.
fn wanted_of(how: How) -> Option<bool> {
    match how {
        How::Stays | How::Added => Some(false),
        How::Replaced => Some(true),
        How::Emptied | How::Dropped => None,
    }
}

/// The path that the change is of.
fn changed_path(rt: &impl Abort, alloc: Global, at: u64, how: How) -> String {
    let more = if how == How::Added { "a" } else { "" };
    format!(in alloc; "/f/{at}{more}").expect(rt, "memory")
}

/// The walk over all files, of which one changes behind the first step.
fn walked(
    rt: &impl Abort,
    alloc: Global,
    at: u64,
    how: How,
    looks: usize,
    behind: usize,
) -> RowWalk {
    let mut index = all_files(rt, alloc);
    let walk = stepped(rt, &index, RowWalk::new(alloc, &index), (true, 256, 0));
    pass_over(rt, alloc, &mut index, listed(rt, alloc, at, how));
    let walk = stepped(rt, &index, walk, (false, looks, 301));
    stepped(rt, &index, walk, (true, behind, 0))
}

#[test]
fn what_is_found_is_by_the_rows_of_the_last_hold(rt: HostRuntime) {
    let alloc = rt.alloc();
    for (at, how, looks, behind, found) in &CASES {
        let walk = walked(&rt, alloc, *at, *how, *looks, *behind);
        let path = changed_path(&rt, alloc, *at, *how);
        let count = walk.found().len();
        assert!(rt; count == *found, "{at}: {count}");
        assert!(rt; debug_of(&walk, path.as_str()) == wanted_of(*how), "{at}");
    }
}

#[test]
fn a_hold_hears_of_25_changes(rt: HostRuntime) {
    let alloc = rt.alloc();
    let mut index = empty_index(alloc, None).expect(&rt, "an index");
    let walk = RowWalk::new(alloc, &index);
    let names = listed(&rt, alloc, FIRST, How::Stays);
    pass_over(&rt, alloc, &mut index, names);
    let walk = stepped(&rt, &index, walk, (false, 0, 25));
    let walk = stepped(&rt, &index, walk, (false, 0, 50));
    assert!(rt; walk.heard() == 50);
}

/// How many files a walk finds that ends with so many, and of how many changes it has heard.
fn found_by<R: Abort + Wait>(rt: &R, alloc: Global, enough: usize) -> (usize, u64) {
    let shared = put_behind(alloc, all_files(rt, alloc)).expect(rt, "a lock");
    let Shared { lock, seat } = shared;
    let (_seat, walk) = walk_all(rt, alloc, &lock, seat, &Identified, enough);
    let walk = walk.expect(rt, "memory");
    (walk.found().len(), walk.heard())
}

#[test]
fn a_walk_ends_with_enough_or_with_all(rt: HostRuntime) {
    let alloc = rt.alloc();
    assert!(rt; found_by(&rt, alloc, 10) == (256, 300));
    assert!(rt; found_by(&rt, alloc, 256) == (256, 300));
    assert!(rt; found_by(&rt, alloc, 257) == (300, 300));
    assert!(rt; found_by(&rt, alloc, 301) == (300, 300));
}
