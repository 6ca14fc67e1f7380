//! What happens to the index, and what is answered to it.

use index_events::{Event, EventAnswer};
use path_canon::Select;
use row_types::OpenWorld;
use sample_rows::{name, names, paths, plain};
use scan_queue::{Listing, Seen};
use std::alloc::Global;
use std::process::Abort;

/// What happens to an index.
#[derive(Clone, Copy)]
pub enum Step {
    /// A pass under `/` over files of these paths and sizes begins.
    Begin(&'static [(&'static str, u64)]),
    /// The row of a file of this path and size is published. It is no ELF file.
    Publish(&'static str, u64),
    /// The file of this path and size is looked for, and gone.
    Gone(&'static str, u64),
    /// The store is opened again.
    Reopen,
}

/// Two files are published; then the first has changed, and the second is gone; then the store is
/// opened again.
pub static TWO_PASSES: [Step; 7] = [
    Step::Begin(&[("/a", 1), ("/b", 2)]),
    Step::Publish("/a", 1),
    Step::Publish("/b", 2),
    Step::Begin(&[("/a", 3)]),
    Step::Publish("/a", 3),
    Step::Gone("/b", 2),
    Step::Reopen,
];

/// The second pass once more, up to its end: names that may have rows are looked for.
pub static SECOND_PASS: [Step; 4] = [
    Step::Begin(&[("/a", 3)]),
    Step::Publish("/a", 3),
    Step::Gone("/a", 1),
    Step::Gone("/b", 2),
];

/// What is answered to the two passes, each with a line feed behind it.
pub static ANSWERS: &str = "Begun(Plan { files: 2, add: 2, replace: 0, drop: 0, keep: 0 })
Added
Added
Begun(Plan { files: 1, add: 0, replace: 1, drop: 1, keep: 0 })
Replaced
Dropped
Opened
";

/// The listing of files of these paths and sizes.
fn listing(rt: &impl Abort, alloc: Global, files: &[(&str, u64)]) -> Listing {
    let names = names(alloc, files).expect(rt, "names");
    Listing::new(names).ok().expect(rt, "names by path")
}

/// The beginning of a pass over these files.
fn begins(rt: &impl Abort, alloc: Global, files: &[(&str, u64)]) -> Event<OpenWorld> {
    let roots = paths(alloc, &["/"]).expect(rt, "a root");
    let select = Select::new(alloc, None, None).ok().expect(rt, "memory");
    Event::Begin(listing(rt, alloc, files), roots, select)
}

/// The event, as it happens to an index.
fn event_of(rt: &impl Abort, alloc: Global, step: Step) -> Event<OpenWorld> {
    match step {
        Step::Begin(files) => begins(rt, alloc, files),
        Step::Publish(path, size) => {
            Event::Publish(plain(alloc, path, size).expect(rt, "a row"))
        }
        Step::Gone(path, size) => {
            Event::Judge(name(alloc, path, size).expect(rt, "a name"), Seen::Gone)
        }
        Step::Reopen => Event::Reopen,
    }
}

/// The events, in order.
pub fn events_of(rt: &impl Abort, alloc: Global, steps: &[Step]) -> Vec<Event<OpenWorld>> {
    let mut events = Vec::new(alloc);
    for step in steps {
        let event = event_of(rt, alloc, *step);
        events.push(event).expect(rt, "memory");
    }
    events
}

/// An answer, as a text.
fn answer_text(rt: &impl Abort, alloc: Global, answer: &EventAnswer) -> String {
    match answer {
        EventAnswer::Begin(begun) => format!(in alloc; "{begun:?}").expect(rt, "memory"),
        EventAnswer::Publish(said) => format!(in alloc; "{said:?}").expect(rt, "memory"),
        EventAnswer::Judge(said) => format!(in alloc; "{said:?}").expect(rt, "memory"),
        EventAnswer::Opened => String::from_str(alloc, "Opened").expect(rt, "memory"),
        _ => String::from_str(alloc, "another answer").expect(rt, "memory"),
    }
}

/// The answers, each with a line feed behind it.
pub fn answers_text(rt: &impl Abort, alloc: Global, answers: &[EventAnswer]) -> String {
    let mut text = String::new(alloc);
    for answer in answers {
        let line = answer_text(rt, alloc, answer);
        text.push_str(line.as_str()).expect(rt, "memory");
        text.push_str("\n").expect(rt, "memory");
    }
    text
}
