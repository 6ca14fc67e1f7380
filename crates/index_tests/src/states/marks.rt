//! Marks: which names of rows that aren't listed are in the scope of a pass, and what becomes of
//! them.

use crate::states::helpers::{NO_PLAN, NOTHING, ended, listing};
use index_keeper::MemStore;
use index_state::{Begun, GroomTask, Judged, Plan, Published, Standing};
use path_scope::AllPaths;
use row_types::OpenWorld;
use sample_index::{Index, empty_store, opened};
use sample_rows::{Chosen, name, name_text, paths, plain};
use scan_queue::Seen;
use std::alloc::Global;
use std::process::Abort;

/// The files whose rows stand, by path.
static FILES: [(&str, u64); 5] = [
    ("/other/a", 1),
    ("/srv/in", 1),
    ("/srv/listed", 1),
    ("/srv/moved", 1),
    ("/srv/out", 1),
];

/// What a walk of `/srv` lists then.
static LISTED: [(&str, u64); 2] = [("/srv/listed", 1), ("/srv/moved", 2)];

/// The paths that are selected. One lies under no root, and one has no row.
static CHOSEN: [&str; 5] = [
    "/other/a",
    "/srv/in",
    "/srv/listed",
    "/srv/moved",
    "/srv/new",
];

/// The index with the rows of the files.
fn with_rows(rt: &impl Abort, alloc: Global, store: &mut MemStore<OpenWorld>) -> Index<OpenWorld> {
    let mut index = opened(alloc, store).ok().expect(rt, "an index opens");
    let files = listing(rt, alloc, &FILES);
    let roots = paths(alloc, &["/"]).expect(rt, "a root");
    let _begun = index.begin(alloc, files, roots, &mut AllPaths);
    for (path, size) in &FILES {
        let row = plain(alloc, path, *size).expect(rt, "a row");
        assert!(rt; index.publish(alloc, row) == Published::Added, "{path}");
    }
    index
}

/// Begins a pass over these files under `/srv`.
fn begin_over(
    rt: &impl Abort,
    alloc: Global,
    index: &mut Index<OpenWorld>,
    files: &[(&str, u64)],
    select: &mut Chosen,
) -> Begun {
    let files = listing(rt, alloc, files);
    let roots = paths(alloc, &["/srv"]).expect(rt, "a root");
    index.begin(alloc, files, roots, select)
}

/// Begins the pass, which asks for those three that aren't listed and lie under the root.
fn begin_chosen(rt: &impl Abort, alloc: Global, index: &mut Index<OpenWorld>) {
    let mut select = Chosen::new(&CHOSEN, 99);
    let plan = Plan {
        files: 2,
        replace: 1,
        drop: 3,
        keep: 1,
        ..NO_PLAN
    };
    let begun = begin_over(rt, alloc, index, &LISTED, &mut select);
    assert!(rt; begun == Begun::Begun(plan), "{begun:?}");
    assert!(rt; select.asked == 3);
}

/// The name that is to be looked for, with its mark, and what it is judged by.
fn task_text(rt: &impl Abort, alloc: Global, task: &GroomTask) -> String {
    let name = name_text(alloc, &task.name).expect(rt, "memory");
    let mark = if task.under { "marked" } else { "unmarked" };
    format!(in alloc; "{name}{mark}").expect(rt, "memory")
}

/// What is seen at a path.
#[derive(Clone, Copy)]
enum Sight {
    /// The file of the row.
    Same,
    /// A file of another size.
    Larger,
    /// Something else.
    Folder,
    /// Nothing.
    Nothing,
}

/// What is seen, where the name is looked for.
fn seen_of(task: &GroomTask, sight: Sight) -> Seen {
    match sight {
        Sight::Same => Seen::File(task.name.stamp),
        Sight::Larger => {
            let mut stamp = task.name.stamp;
            stamp.size = 7;
            Seen::File(stamp)
        }
        Sight::Folder => Seen::Other,
        Sight::Nothing => Seen::Gone,
    }
}

/// What is judged, in a word.
fn judged_word(judged: Judged) -> &'static str {
    match judged {
        Judged::Dropped => "dropped",
        Judged::Strange => "strange",
        _ => "else",
    }
}

/// Takes the next name and judges it, and compares.
fn judge_next(
    rt: &impl Abort,
    alloc: Global,
    index: &mut Index<OpenWorld>,
    sight: Sight,
    want: (&str, &str),
) {
    let task = index.groom_take().expect(rt, "a name is left");
    let text = task_text(rt, alloc, &task);
    let word = judged_word(index.judge(alloc, &task.name, seen_of(&task, sight)));
    assert!(rt; (text.as_str(), word) == want, "{text}: {word}");
}

/// The names that are looked for, in order, with their marks, and what they are judged where their
/// files are there.
static TASKS: [(&str, &str); 4] = [
    ("/other/a 1, unmarked", "dropped"),
    ("/srv/in 1, marked", "strange"),
    ("/srv/moved 1, marked", "strange"),
    ("/srv/out 1, unmarked", "dropped"),
];

/// What is judged where this is seen of each.
fn judged_by(sight: Sight, there: &'static str) -> &'static str {
    match sight {
        Sight::Same => there,
        _ => "dropped",
    }
}

/// Judges each name by what is seen, and compares.
fn judge_all(rt: &impl Abort, alloc: Global, index: &mut Index<OpenWorld>, sight: Sight) {
    for (text, there) in &TASKS {
        let want = (*text, judged_by(sight, *there));
        judge_next(rt, alloc, index, sight, want);
    }
    assert!(rt; index.groom_take().is_none());
}

/// What is seen at each path, and the rows, how many names are missed and how many changes there
/// are in the end.
static SIGHTS: [(Sight, &str, u64, u64); 4] = [
    (
        Sight::Same,
        "/srv/in 1, /srv/listed 1, /srv/moved 1, ",
        2,
        7,
    ),
    (Sight::Larger, "/srv/listed 1, ", 0, 9),
    (Sight::Folder, "/srv/listed 1, ", 0, 9),
    (Sight::Nothing, "/srv/listed 1, ", 0, 9),
];

/// How an index stands with `/srv/moved` left to be read, so many missed, and so many changes.
fn standing(missed: u64, log: u64) -> Standing {
    Standing {
        todo: 1,
        missed,
        log,
        rows: missed.saturating_add(1),
        ..NOTHING
    }
}

/// Ends the index, and compares.
fn compare_end(
    rt: &impl Abort,
    alloc: Global,
    store: &mut MemStore<OpenWorld>,
    index: Index<OpenWorld>,
    want: (&str, Standing),
) {
    let (rows, stands) = ended(rt, alloc, store, index);
    assert!(rt; (rows.as_str(), stands) == want, "{rows}");
}

#[test]
fn a_row_whose_file_is_there_stays_where_it_is_marked(rt: HostRuntime) {
    let alloc = rt.alloc();
    for (sight, rows, missed, log) in &SIGHTS {
        let mut store = empty_store(alloc, None);
        let mut index = with_rows(&rt, alloc, &mut store);
        begin_chosen(&rt, alloc, &mut index);
        judge_all(&rt, alloc, &mut index, *sight);
        let want = (*rows, standing(*missed, *log));
        compare_end(&rt, alloc, &mut store, index, want);
    }
}

/// Begins the pass where no path is selected.
fn begin_unselected(rt: &impl Abort, alloc: Global, index: &mut Index<OpenWorld>) {
    let mut select = Chosen::new(&[], 99);
    let _begun = begin_over(rt, alloc, index, &LISTED, &mut select);
}

/// Judges the listed name, of whose file nothing was seen.
fn judge_listed(rt: &impl Abort, alloc: Global, index: &mut Index<OpenWorld>) -> Judged {
    let name = name(alloc, "/srv/listed", 1).expect(rt, "a name");
    index.judge(alloc, &name, Seen::Gone)
}

/// Takes the names that are to be looked for, and compares that none is marked.
fn compare_marks(rt: &impl Abort, alloc: Global, index: &mut Index<OpenWorld>) {
    for (text, _) in &TASKS {
        let task = index.groom_take().expect(rt, "a name is left");
        assert!(rt; !task.under, "{text}");
    }
}

/// Compares what is judged of a listed name, and that no name is marked, where no path is selected.
fn compare_unselected(rt: &impl Abort, alloc: Global, index: &mut Index<OpenWorld>) {
    begin_unselected(rt, alloc, index);
    assert!(rt; judge_listed(rt, alloc, index) == Judged::Kept);
    compare_marks(rt, alloc, index);
}

/// How an index stands with its rows where `/srv/moved` is to be read and four names are out.
const ALL_OUT: Standing = Standing {
    todo: 1,
    out: 4,
    log: 5,
    rows: 5,
    ..NOTHING
};

#[test]
fn a_listed_name_is_kept_though_it_is_not_selected(rt: HostRuntime) {
    let mut store = empty_store(rt.alloc(), None);
    let mut index = with_rows(&rt, rt.alloc(), &mut store);
    compare_unselected(&rt, rt.alloc(), &mut index);
    let rows = "/other/a 1, /srv/in 1, /srv/listed 1, /srv/moved 1, /srv/out 1, ";
    compare_end(&rt, rt.alloc(), &mut store, index, (rows, ALL_OUT));
}

/// Begins a pass over nothing, which wants memory at this question, and compares what is answered,
/// how many questions there were, and that the index stands as it stood.
fn begin_without_memory(rt: &impl Abort, alloc: Global, index: &mut Index<OpenWorld>, wants: u64) {
    let stood = index.standing();
    let mut select = Chosen::new(&CHOSEN, wants);
    let begun = begin_over(rt, alloc, index, &[], &mut select);
    assert!(rt; begun == Begun::OutOfMemory, "{wants}: {begun:?}");
    assert!(rt; select.asked == wants.saturating_add(1));
    assert!(rt; index.standing() == stood, "{wants}");
}

// Four rows lie under the root. After each refusal the pass that had begun goes on, with its marks.
#[test]
fn a_beginning_that_wants_memory_leaves_the_pass_before_it(rt: HostRuntime) {
    let alloc = rt.alloc();
    let mut store = empty_store(alloc, None);
    let mut index = with_rows(&rt, alloc, &mut store);
    begin_chosen(&rt, alloc, &mut index);
    for wants in 0..4 {
        begin_without_memory(&rt, alloc, &mut index, wants);
    }
    judge_all(&rt, alloc, &mut index, Sight::Same);
    let rows = "/srv/in 1, /srv/listed 1, /srv/moved 1, ";
    compare_end(&rt, alloc, &mut store, index, (rows, standing(2, 7)));
}
