//! The told world of one path with two versions, of which neither is an ELF file.

ghost use Rattle.std.specs.Prelude.{◌≡◌, ◌⊎◌};
ghost use Rattle.tree_trait.specs.TwoWorld.{first_stamp, path as only_path, second_stamp};

use crate::states::helpers::{listing_of, taken_text};
use index_events::Event;
use index_state::{Begun, Published};
use path_canon::{AllPaths, Select};
use row_types::{BuildId, CanonPath, EDITION, Kind, Name, Reading, Row, Stamp, TrueRow, Why};
use sample_index::{Index, opened};
use sample_rows::{path, paths};
use scan_queue::{Cause, Listing, Seen};
use std::alloc::Global;
use std::process::Abort;
use tree_trait::TwoWorld;

/// A version of the file.
#[derive(Clone, Copy)]
pub enum Version {
    /// The first, of one byte.
    First,
    /// The second, of two bytes.
    Second,
}

/// The stamp of a version.
pub fn stamp_of(version: Version) -> Stamp
    ensures { (result ≡ first_stamp) ⊎ (result ≡ second_stamp) }
{
    match version {
        Version::First => Stamp {
            size: 1,
            secs: 1,
            nanos: 0,
        },
        Version::Second => Stamp {
            size: 2,
            secs: 2,
            nanos: 0,
        },
    }
}

/// The name of the file with this stamp.
fn name_with(rt: &impl Abort, alloc: Global, stamp: Stamp) -> Name
    ensures { result ≡ record { path = only_path; stamp = stamp } }
{
    Name {
        path: path(alloc, "/w/a").expect(rt, "a path"),
        stamp,
    }
}

/// The name of a version.
pub fn name_of(rt: &impl Abort, alloc: Global, version: Version) -> Name {
    name_with(rt, alloc, stamp_of(version))
}

/// The listing of a version alone.
pub fn listed(rt: &impl Abort, alloc: Global, version: Version) -> Listing {
    listing_of(rt, alloc, name_of(rt, alloc, version))
}

/// The row of a version.
#[tactic(auto, using(crate::proofs::TwoWorldRows::version_is_true))]
pub fn row_of(rt: &impl Abort, alloc: Global, version: Version) -> TrueRow<TwoWorld> {
    let name = name_with(rt, alloc, stamp_of(version));
    TrueRow::new(Row::new(name, EDITION, Reading::Plain(Why::NotElf)))
}

/// The roots of a pass.
fn roots(rt: &impl Abort, alloc: Global) -> Vec<CanonPath> {
    paths(alloc, &["/w"]).expect(rt, "a root")
}

/// An event of the world of two versions.
#[derive(Clone, Copy)]
pub enum Step {
    /// A pass over the version begins.
    Begin(Version),
    /// The first name that is to be read goes out.
    Take,
    /// The version's row is published.
    Publish(Version),
    /// The first name that is to be looked for goes out.
    GroomTake,
    /// The first version's name is judged where the second stands.
    Judge,
    /// The version's name is missed, since it could not be read.
    Miss(Version),
    /// The names that are out or missed are tried again.
    Retry,
    /// The executables of an id are looked up.
    Look,
    /// The index is opened again.
    Reopen,
}

/// The event, as it happens to an index.
fn event_of(rt: &impl Abort, alloc: Global, step: Step) -> Event<TwoWorld> {
    match step {
        Step::Begin(version) => {
            let all = Select::new(alloc, None, None).expect(rt, "memory");
            Event::Begin(listed(rt, alloc, version), roots(rt, alloc), all)
        }
        Step::Take => Event::Take,
        Step::Publish(version) => Event::Publish(row_of(rt, alloc, version)),
        Step::GroomTake => Event::GroomTake,
        Step::Judge => {
            let seen = Seen::File(stamp_of(Version::Second));
            Event::Judge(name_of(rt, alloc, Version::First), seen)
        }
        Step::Miss(version) => Event::Miss(name_of(rt, alloc, version), Cause::ReadFault),
        Step::Retry => Event::Retry,
        Step::Look => {
            let id = BuildId::new(&[0xab, 0xcd]).expect(rt, "two bytes are an id");
            Event::Look(id, Kind::Executable)
        }
        Step::Reopen => Event::Reopen,
    }
}

/// The events, in order.
pub fn events_of(rt: &impl Abort, alloc: Global, steps: &[Step]) -> Vec<Event<TwoWorld>> {
    let mut events = Vec::new(alloc);
    for step in steps {
        let event = event_of(rt, alloc, *step);
        events.push(event).expect(rt, "memory");
    }
    events
}

/// Begins a pass over a version.
pub fn begin_over(
    rt: &impl Abort,
    alloc: Global,
    index: &mut Index<TwoWorld>,
    version: Version,
) -> Begun {
    index.begin(
        alloc,
        listed(rt, alloc, version),
        roots(rt, alloc),
        &mut AllPaths,
    )
}

/// A pass over a version: its name is taken, and its row is published. What was answered.
pub fn scan(
    rt: &impl Abort,
    alloc: Global,
    index: &mut Index<TwoWorld>,
    version: Version,
) -> (Begun, String, Published) {
    let begun = begin_over(rt, alloc, index, version);
    let taken = taken_text(rt, alloc, index.take());
    (
        begun,
        taken,
        index.publish(alloc, row_of(rt, alloc, version)),
    )
}
