//! One candidate: its file is opened and read, or loaded whole.

ghost use Rattle.std.specs.Prelude.{◌≡◌, true, false, option_copied};
ghost use Rattle.answer_core.specs.Given.{asks_source, needs_for, section_asked};
ghost use Rattle.answer_core.specs.Loads.{TriesOne};
ghost use Rattle.file_parts.specs.AtPath.{SeesAtPath};

use crate::candidate::Candidate;
use crate::fitting::check_opened;
use crate::given::{Given, Tried};
use file_parts::{FilePart, FileSeen, read_at_path};
use row_types::{READ_LIMIT, Truth};
use std::alloc::Global;
use std::sync::Wait;
use tree_trait::{Found, Gate, LoadAnswer, Point, Tree};
use webapi_routes::{Route, SectionName};

/// Opens a candidate of at most [`FILE_LIMIT`](row_types::FILE_LIMIT) bytes, reads of it what the answer
/// to the route rests on and no more, and checks that. A source of at most [`READ_LIMIT`] bytes is loaded
/// whole. The gate is passed before.
pub(crate) fn try_one<W: Truth, T: Tree<W>, G: Gate, R: Wait + Sync>(
    rt: &R,
    alloc: Global,
    hand: &mut T,
    route: &Route,
    candidate: &Candidate,
    gate: &G,
) -> Tried<T::File>
    ensures { TriesOne T.opened
        (record { told = T.told; version = W.version; start = T.shows hand.old })
        route.now candidate.now result (T.shows hand.new) }
{
    gate.at(rt, &Point::Loading(candidate.path.text()));
    if asks_source(route) {
        try_source(alloc, hand, route, candidate)
    } else {
        try_file(alloc, hand, route, candidate)
    }
}

/// Whether the route asks for a source.
fn asks_source(route: &Route) -> bool
    ensures { result ≡ asks_source route.now }
{
    matches!(route, Route::Source(_, _))
}

/// Loads a source.
fn try_source<W: Truth, T: Tree<W>>(
    alloc: Global,
    hand: &mut T,
    route: &Route,
    candidate: &Candidate,
) -> Tried<T::File>
    requires { asks_source route.now ≡ true }
    ensures { TriesOne T.opened
        (record { told = T.told; version = W.version; start = T.shows hand.old })
        route.now candidate.now result (T.shows hand.new) }
{
    match hand.load(alloc, candidate.path.text(), READ_LIMIT) {
        LoadAnswer::Found(found) => Tried::Passed(Given::Source(bytes_of(found))),
        LoadAnswer::TooLarge { .. } => Tried::Refused,
        LoadAnswer::Gone => Tried::Refused,
        LoadAnswer::Failed => Tried::Failed,
        LoadAnswer::OutOfMemory => Tried::OutOfMemory,
    }
}

/// The bytes of a file that was loaded.
fn bytes_of<W: Truth>(found: Found<W>) -> Vec<u8>
    ensures { result.items ≡ found.bytes }
{
    let Found { bytes, .. } = found;
    bytes
}

/// Opens a file, reads of it what the answer rests on, and checks that.
fn try_file<W: Truth, T: Tree<W>>(
    alloc: Global,
    hand: &mut T,
    route: &Route,
    candidate: &Candidate,
) -> Tried<T::File>
    requires { asks_source route.now ≡ false }
    ensures { TriesOne T.opened
        (record { told = T.told; version = W.version; start = T.shows hand.old })
        route.now candidate.now result (T.shows hand.new) }
{
    match read_for(alloc, hand, route, candidate.path.text()) {
        FileSeen::Read(opened) => {
            // For its clause: a version of the name agrees with the picture.
            opened.knows();
            check_opened(alloc, route, candidate.class, opened)
        }
        FileSeen::TooLarge(_) => Tried::Refused,
        FileSeen::Gone => Tried::Refused,
        FileSeen::Failed => Tried::Failed,
        FileSeen::OutOfMemory => Tried::OutOfMemory,
    }
}

/// Opens the file at a path, and reads of it what the answer to the route rests on.
fn read_for<W: Truth, T: Tree<W>>(
    alloc: Global,
    hand: &mut T,
    route: &Route,
    path: &str,
) -> FileSeen<W, T::File>
    ensures { SeesAtPath T.opened (needs_for route.now) T.told W.version path.now
        (T.shows hand.old) (T.shows hand.new) result }
{
    match section_asked(route) {
        Some(name) => read_at_path(alloc, hand, path, FilePart::Section(name.bytes())),
        None => read_at_path(alloc, hand, path, FilePart::Identity),
    }
}

/// The name of the section that the route asks for, if it asks for one.
fn section_asked(route: &Route) -> Option<&SectionName>
    ensures { option_copied result ≡ section_asked route.now }
{
    match route {
        Route::Section(_, name) => Some(name),
        Route::Debuginfo(_) | Route::Executable(_) | Route::Source(_, _) | Route::Metrics => None,
    }
}
