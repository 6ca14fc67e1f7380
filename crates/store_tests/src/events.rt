//! Lists of events of an index over a database in memory, which tells its tables.

mod steps;

ghost use Rattle.std.specs.Prelude.{true, IsTrue};
ghost use Rattle.index_events.specs.Puts.{EndLasts};

use crate::events::steps::{ANSWERS, SECOND_PASS, Step, TWO_PASSES, answers_text, events_of};
use crate::rig::{after, kept_paths, number};
use index_events::{Event, EventsEnd, run_events};
use index_keeper::Store;
use index_state::State;
use row_types::OpenWorld;
use sample_index::opened;
use sample_rows::rows_text;
use sqlite::{Connection, MemStore};
use sqlite_keeper::HeldStore;
use std::alloc::Global;
use std::process::Abort;

/// Makes the events happen to an index whose store tells its tables: a row that was put last stands
/// in whatever a stop then leaves of them.
fn run_told<S: Store<OpenWorld>>(
    alloc: Global,
    index: State<OpenWorld, S::K>,
    store: &mut S,
    events: Vec<Event<OpenWorld>>,
) -> EventsEnd<OpenWorld, S::K>
    requires { IsTrue S.K.told }
    ensures { EndLasts true S.K.shows events.items result }
{
    run_events(alloc, index, store, "m", events)
}

/// The rows of an index in whose pass nothing is left to do. Its keeper is given back.
fn ended<S: Store<OpenWorld>>(
    rt: &impl Abort,
    alloc: Global,
    store: &mut S,
    index: State<OpenWorld, S::K>,
) -> String {
    let rows = rows_text(alloc, index.rows()).expect(rt, "memory");
    let standing = index.standing();
    store.give_back(index.into_keeper());
    assert!(rt; standing.todo == 0 && standing.out == 0, "files to read");
    assert!(rt;
        standing.groom == 0 && standing.missed == 0,
        "files to look for"
    );
    rows
}

/// Makes the events happen to an index whose store tells its tables: what was answered, and the
/// rows in the end.
fn run<S: Store<OpenWorld>>(
    rt: &impl Abort,
    alloc: Global,
    store: &mut S,
    index: State<OpenWorld, S::K>,
    events: Vec<Event<OpenWorld>>,
) -> (String, String)
    requires { IsTrue S.K.told }
{
    match run_told(alloc, index, store, events) {
        EventsEnd::All { state, answers } => {
            let said = answers_text(rt, alloc, answers.as_slice());
            (said, ended(rt, alloc, store, state))
        }
        EventsEnd::Stopped { .. } => panic!(rt; "memory suffices"),
        EventsEnd::Unopened { .. } => panic!(rt; "the store opens with its index"),
    }
}

/// The same, of the index on a store.
fn open_and_run<S: Store<OpenWorld>>(
    rt: &impl Abort,
    alloc: Global,
    store: &mut S,
    steps: &[Step],
) -> (String, String)
    requires { IsTrue S.K.told }
{
    let index = opened(alloc, store).ok().expect(rt, "an index opens");
    let events = events_of(rt, alloc, steps);
    run(rt, alloc, store, index, events)
}

/// Makes the steps on an index of the store, and compares what is left. What was answered, each with
/// a line feed behind it.
fn pass<S: Store<OpenWorld>>(
    rt: &impl Abort,
    alloc: Global,
    store: &mut S,
    steps: &[Step],
) -> String
    requires { IsTrue S.K.told }
{
    let (said, rows) = open_and_run(rt, alloc, store, steps);
    assert!(rt; rows.as_str() == "/a 3, ", "{rows}");
    let paths = kept_paths(rt, alloc, store);
    assert!(rt; paths.as_str() == "/a ", "{paths}");
    said
}

/// The connection of a store over which both passes were made.
fn passed_over(rt: &impl Abort, alloc: Global) -> Connection<MemStore> {
    let mut store = HeldStore::new(after(rt, alloc, ""));
    let said = pass(rt, alloc, &mut store, &TWO_PASSES);
    assert!(rt; said.as_str() == ANSWERS, "{said}");
    let _again = pass(rt, alloc, &mut store, &SECOND_PASS);
    store.into_connection().expect(rt, "a connection")
}

// The bytes are those of the row by the format. The store was opened for the two passes, by their
// last event, for the pass that is made again, and twice for its paths.
#[test]
fn events_change_the_tables_of_a_database_in_memory(rt: HostRuntime) {
    let mut connection = passed_over(&rt, rt.alloc());
    let row = "SELECT count(*) FROM kept WHERE path = '/a' \
        AND body = x'02020000002f6103000000000000006400000000000000000000000001'";
    assert!(rt; number(&rt, &mut connection, row) == 1, "the row of /a");
    let rows = "SELECT count(*) FROM kept";
    assert!(rt; number(&rt, &mut connection, rows) == 1, "other rows");
    let openings = "SELECT n FROM epoch";
    assert!(rt; number(&rt, &mut connection, openings) == 5, "openings");
}
