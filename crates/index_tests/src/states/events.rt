//! Lists of events, most of them in the told world of one path with two versions.

use crate::states::helpers::{NOTHING, ended, listing};
use crate::states::told::{Step, Version, events_of, scan};
use index_events::{Event, EventAnswer, EventsEnd, run_events};
use index_keeper::MemStore;
use index_state::{GroomTask, Standing};
use path_canon::Select;
use row_types::{BuildId, CanonPath, Kind, OpenWorld, TrueRow, Truth};
use sample_index::{Index, empty_store, opened};
use sample_rows::{elf, name, name_text, paths, row};
use scan_queue::Seen;
use std::alloc::Global;
use std::process::Abort;
use tree_trait::TwoWorld;

/// The name that is to be looked for, with whether it is marked, or nothing.
fn task_text(rt: &impl Abort, alloc: Global, task: Option<&GroomTask>) -> String {
    let Some(GroomTask { name, under }) = task else {
        return String::new(alloc);
    };
    let name = name_text(alloc, name).expect(rt, "memory");
    let mark = if *under { "marked" } else { "unmarked" };
    format!(in alloc; "{name}{mark}").expect(rt, "memory")
}

/// The paths, each with a space behind it.
fn paths_text(rt: &impl Abort, alloc: Global, found: &[CanonPath]) -> String {
    let mut text = String::new(alloc);
    for path in found {
        text.push_str(path.text()).expect(rt, "memory");
        text.push_str(" ").expect(rt, "memory");
    }
    text
}

/// An answer, as a text.
fn said_text(rt: &impl Abort, alloc: Global, answer: &EventAnswer) -> String {
    match answer {
        EventAnswer::Begin(begun) => format!(in alloc; "{begun:?}").expect(rt, "memory"),
        EventAnswer::Take(Some(name)) => name_text(alloc, name).expect(rt, "memory"),
        EventAnswer::Take(None) => String::new(alloc),
        EventAnswer::Publish(said) => format!(in alloc; "{said:?}").expect(rt, "memory"),
        EventAnswer::GroomTake(task) => task_text(rt, alloc, task.as_ref()),
        EventAnswer::Judge(said) => format!(in alloc; "{said:?}").expect(rt, "memory"),
        EventAnswer::Miss(was_out) => format!(in alloc; "{was_out:?}").expect(rt, "memory"),
        EventAnswer::Retry(count) => format!(in alloc; "{count:?}").expect(rt, "memory"),
        EventAnswer::Look(found) => paths_text(rt, alloc, found.as_slice()),
        EventAnswer::Opened => String::from_str(alloc, "Opened").expect(rt, "memory"),
    }
}

/// Compares what was answered with the texts.
fn compare(rt: &impl Abort, alloc: Global, answers: &[EventAnswer], want: &[&str]) {
    assert!(rt; answers.len() == want.len());
    for (answer, want) in answers.iter().zip(want) {
        let text = said_text(rt, alloc, answer);
        assert!(rt; text.as_str() == *want, "{want}: {text}");
    }
}

/// Makes the events happen to the index, and compares what is answered to each. The rows in the
/// end, and how the index stands.
fn run<W: Truth + Send>(
    rt: &impl Abort,
    alloc: Global,
    store: &mut MemStore<W>,
    index: Index<W>,
    events: Vec<Event<W>>,
    want: &[&str],
) -> (String, Standing) {
    match run_events(alloc, index, store, "m", events) {
        EventsEnd::All { state, answers } => {
            compare(rt, alloc, answers.as_slice(), want);
            ended(rt, alloc, store, state)
        }
        EventsEnd::Stopped { .. } => panic!(rt; "memory suffices"),
        EventsEnd::Unopened { .. } => panic!(rt; "the store opens with its index"),
    }
}

/// Each event at least once.
static EACH_EVENT: [Step; 13] = [
    Step::Begin(Version::First),
    Step::Take,
    Step::Publish(Version::First),
    Step::Reopen,
    Step::Begin(Version::Second),
    Step::GroomTake,
    Step::Take,
    Step::Miss(Version::Second),
    Step::Retry,
    Step::Judge,
    Step::Publish(Version::Second),
    Step::Look,
    Step::Reopen,
];

/// What is answered to each of them.
static EACH_ANSWER: [&str; 13] = [
    "Begun(Plan { files: 1, add: 1, replace: 0, drop: 0, keep: 0 })",
    "/w/a 1, ",
    "Added",
    "Opened",
    "Begun(Plan { files: 1, add: 0, replace: 1, drop: 0, keep: 0 })",
    "/w/a 1, marked",
    "/w/a 2, ",
    "true",
    "2",
    "Dropped",
    "Added",
    "",
    "Opened",
];

/// How an index stands that has one row, and changed once.
const ONE_ROW: Standing = Standing {
    log: 1,
    rows: 1,
    ..NOTHING
};

#[test]
fn each_event_is_answered(rt: HostRuntime) {
    let alloc = rt.alloc();
    let mut store = empty_store(alloc, None);
    let index = opened(alloc, &mut store).ok().expect(&rt, "an index opens");
    let events = events_of(&rt, alloc, EACH_EVENT.as_slice());
    let (rows, standing) = run(
        &rt,
        alloc,
        &mut store,
        index,
        events,
        EACH_ANSWER.as_slice(),
    );
    assert!(rt; rows.as_str() == "/w/a 2, ");
    assert!(rt; standing == ONE_ROW);
}

/// A pass over the second version begins, its name is taken, and the index is opened again.
static REOPENED: [Step; 4] = [
    Step::Begin(Version::Second),
    Step::Take,
    Step::Reopen,
    Step::Look,
];

/// What is answered to each of them, where the first version's row stands.
static FORGOTTEN: [&str; 4] = [
    "Begun(Plan { files: 1, add: 0, replace: 1, drop: 0, keep: 0 })",
    "/w/a 2, ",
    "Opened",
    "",
];

/// An index with the first version's row.
fn with_first(rt: &impl Abort, alloc: Global, store: &mut MemStore<TwoWorld>) -> Index<TwoWorld> {
    let mut index = opened(alloc, store).ok().expect(rt, "an index opens");
    let _scanned = scan(rt, alloc, &mut index, Version::First);
    index
}

#[test]
fn a_reopening_forgets_the_pass(rt: HostRuntime) {
    let alloc = rt.alloc();
    let mut store = empty_store(alloc, None);
    let index = with_first(&rt, alloc, &mut store);
    let events = events_of(&rt, alloc, REOPENED.as_slice());
    let (_, standing) = run(&rt, alloc, &mut store, index, events, FORGOTTEN.as_slice());
    assert!(rt; standing == ONE_ROW);
}

/// The row of an executable of this path and size.
fn executable(rt: &impl Abort, alloc: Global, text: &str, size: u64) -> TrueRow<OpenWorld> {
    let reading = elf(alloc, b"ab", true, false, &["/x.c"]).expect(rt, "a reading");
    row(alloc, text, size, reading).expect(rt, "a row")
}

/// Begins a pass over these files under `/`, of what the pattern doesn't exclude.
fn begins(
    rt: &impl Abort,
    alloc: Global,
    files: &[(&str, u64)],
    exclude: Option<&str>,
) -> Event<OpenWorld> {
    let select = Select::new(alloc, None, exclude).expect(rt, "a pattern");
    let roots = paths(alloc, &["/"]).expect(rt, "a root");
    Event::Begin(listing(rt, alloc, files), roots, select)
}

/// Two executables of one id are published, and looked up.
fn publishes_and_looks(rt: &impl Abort, alloc: Global) -> Vec<Event<OpenWorld>> {
    let begin = begins(rt, alloc, &[("/a", 4), ("/b", 3)], None);
    let first = Event::Publish(executable(rt, alloc, "/b", 3));
    let second = Event::Publish(executable(rt, alloc, "/a", 4));
    let id = BuildId::new(b"ab").expect(rt, "two bytes are an id");
    let looks = Event::Look(id, Kind::Executable);
    vec![in alloc; begin, first, second, looks].expect(rt, "memory")
}

/// What is answered to each of them.
static FOUND: [&str; 4] = [
    "Begun(Plan { files: 2, add: 2, replace: 0, drop: 0, keep: 0 })",
    "Added",
    "Added",
    "/a /b ",
];

#[test]
fn a_look_up_finds_the_paths_of_an_id(rt: HostRuntime) {
    let alloc = rt.alloc();
    let mut store = empty_store::<OpenWorld>(alloc, None);
    let index = opened(alloc, &mut store).ok().expect(&rt, "an index opens");
    let events = publishes_and_looks(&rt, alloc);
    let _came = run(&rt, alloc, &mut store, index, events, FOUND.as_slice());
}

/// Three files are published, and a pass begins over none of them, which excludes two. Each file is
/// seen as it was.
fn publishes_and_excludes(rt: &impl Abort, alloc: Global) -> Vec<Event<OpenWorld>> {
    let files = [("/a", 1), ("/b", 1), ("/c", 1)];
    let mut events = Vec::new(alloc);
    events
        .push(begins(rt, alloc, &files, None))
        .expect(rt, "memory");
    for (path, size) in &files {
        let row = executable(rt, alloc, path, *size);
        events.push(Event::Publish(row)).expect(rt, "memory");
    }
    events
        .push(begins(rt, alloc, &[], Some("^/[ac]$")))
        .expect(rt, "memory");
    for (path, size) in &files {
        let name = name(alloc, path, *size).expect(rt, "a name");
        let seen = Seen::File(name.stamp);
        events.push(Event::GroomTake).expect(rt, "memory");
        events.push(Event::Judge(name, seen)).expect(rt, "memory");
    }
    events
}

/// What is answered to each of them: a row that isn't selected goes, though its file is there.
static EXCLUDED: [&str; 11] = [
    "Begun(Plan { files: 3, add: 3, replace: 0, drop: 0, keep: 0 })",
    "Added",
    "Added",
    "Added",
    "Begun(Plan { files: 0, add: 0, replace: 0, drop: 3, keep: 0 })",
    "/a 1, unmarked",
    "Dropped",
    "/b 1, marked",
    "Strange",
    "/c 1, unmarked",
    "Dropped",
];

#[test]
fn a_row_that_is_excluded_goes_though_its_file_is_there(rt: HostRuntime) {
    let alloc = rt.alloc();
    let mut store = empty_store::<OpenWorld>(alloc, None);
    let index = opened(alloc, &mut store).ok().expect(&rt, "an index opens");
    let events = publishes_and_excludes(&rt, alloc);
    let (rows, _) = run(&rt, alloc, &mut store, index, events, EXCLUDED.as_slice());
    assert!(rt; rows.as_str() == "/b 1, ");
}
