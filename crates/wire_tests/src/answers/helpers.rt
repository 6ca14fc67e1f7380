//! What is asked, and answers as texts.

ghost use Rattle.std.specs.Prelude.{◌≢◌};
ghost use Rattle.webapi_routes.specs.declared.route.Route.TheVariants.{Metrics};

use answer_core::{Local, answer_local};
use row_types::{BuildId, CanonPath, Truth};
use sample_index::{Index, Shared, put_behind};
use sample_rows::{path, paths};
use std::alloc::{AllocError, Global};
use std::process::Abort;
use std::sync::Wait;
use tree_trait::{NoGate, Tree};
use webapi_routes::{Route, SectionName};

/// What a request asks for beside its id.
#[derive(Clone, Copy)]
pub enum Wanted {
    /// The executable.
    Code,
    /// The debug information.
    Debug,
    /// The section of this name.
    Part(&'static [u8]),
    /// The source at this path.
    Text(&'static str),
}

/// The id, what is asked, the folders of sources, the calls of the hand that fail, counted from 0,
/// and the answer. An opening is a call, and each read of what was opened, and each load.
#[derive(Clone, Copy)]
pub struct Case(
    pub &'static [u8],
    pub Wanted,
    pub &'static [&'static str],
    pub &'static [u64],
    pub &'static str,
);

/// The route of a request.
pub fn route(rt: &impl Abort, alloc: Global, id: &[u8], wanted: Wanted) -> Route
    ensures { result ≢ Metrics }
{
    let id = BuildId::new(id).expect(rt, "an id");
    match wanted {
        Wanted::Code => Route::Executable(id),
        Wanted::Debug => Route::Debuginfo(id),
        Wanted::Part(name) => {
            let name = Vec::from_slice(alloc, name).expect(rt, "memory");
            Route::Section(id, SectionName::new(name))
        }
        Wanted::Text(text) => Route::Source(id, path(alloc, text).expect(rt, "a canonical path")),
    }
}

/// An answer as a text: its kind, its path, how many bytes of the file were read and how many it has,
/// or the length of its body, and its generation.
fn text_of<F: Drop>(alloc: Global, local: &Local<F>) -> Result<String, AllocError> {
    match local {
        Local::File {
            from,
            path,
            gen_,
            ..
        } => {
            let (known, size) = (from.picture().bytes(), from.picture().size());
            format!(in alloc; "file {} {known} of {size} at {gen_}", path.text())
        }
        Local::Section { from, path, gen_ } => {
            let len = from.bytes().len();
            format!(in alloc; "section {} {len} at {gen_}", path.text())
        }
        Local::Source { bytes, path, gen_ } => {
            let len = bytes.len();
            format!(in alloc; "source {} {len} at {gen_}", path.text())
        }
        Local::Nothing { gen_ } => format!(in alloc; "nothing at {gen_}"),
        Local::Fault { gen_ } => format!(in alloc; "fault at {gen_}"),
        Local::OutOfMemory => String::from_str(alloc, "out of memory"),
    }
}

/// How a route is answered by an index and a hand, with sources in these folders.
fn answer<W: Truth + Send, T: Tree<W>, R: Abort + Wait + Sync>(
    rt: &R,
    alloc: Global,
    index: Index<W>,
    hand: &mut T,
    route: &Route,
    folders: &[CanonPath],
) -> String
    requires { route.now ≢ Metrics }
{
    let Shared { lock, seat } = put_behind(alloc, index).expect(rt, "memory");
    let (_seat, local) = answer_local(rt, alloc, &lock, seat, hand, route, folders, &NoGate);
    text_of(alloc, &local).expect(rt, "memory")
}

/// How the request of a case is answered by an index and a hand.
pub fn answer_to<W: Truth + Send, T: Tree<W>, R: Abort + Wait + Sync>(
    rt: &R,
    alloc: Global,
    index: Index<W>,
    hand: &mut T,
    case: &Case,
) -> String {
    let route = route(rt, alloc, case.0, case.1);
    let folders = paths(alloc, case.2).expect(rt, "a canonical path");
    answer(rt, alloc, index, hand, &route, folders.as_slice())
}
