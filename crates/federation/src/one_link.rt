//! The questions to one link.

ghost use Rattle.std.specs.Prelude.{◌≡◌, ◌≤◌, ◌∷◌, []};
ghost use Rattle.federation.specs.Replies.{questions_of};
ghost use Rattle.federation.specs.Rows.{AsksOneLink, link_end};
ghost use Rattle.webapi_routes.specs.declared.route.Route.TheVariants as wanted;

use crate::judging::{QuestionEnd, ask_one};
use crate::link::Link;
use answer_check::Passed;
use row_types::BuildId;
use std::alloc::Global;
use std::sync::Wait;
use webapi_routes::Route;

/// What the questions to a link gave.
#[derive(Drop)]
pub(crate) enum LinkEnd {
    /// An answer passes.
    Passed(Passed),
    /// None passes: so many didn't, and so often the link failed.
    Nothing { refused: u64, failed: u64 },
    /// There was not enough memory.
    OutOfMemory,
}

/// Asks one link for a route: for a section first for the file with debug information, and then for the
/// executable.
pub(crate) fn ask_link<L: Link, Rt: Wait + Sync>(
    rt: &Rt,
    alloc: Global,
    link: &mut L,
    route: &Route,
    hops: u64,
) -> LinkEnd
    ensures { AsksOneLink (L.shows link.old) route.now hops (L.shows link.new) result }
{
    match route {
        Route::Section(id, _) => ask_twice(rt, alloc, link, route, id, hops),
        Route::Debuginfo(_) => ask_once(rt, alloc, link, route, hops),
        Route::Executable(_) => ask_once(rt, alloc, link, route, hops),
        Route::Source(_, _) => ask_once(rt, alloc, link, route, hops),
        Route::Metrics => ask_once(rt, alloc, link, route, hops),
    }
}

/// Asks one link for a route itself.
fn ask_once<L: Link, Rt: Wait + Sync>(
    rt: &Rt,
    alloc: Global,
    link: &mut L,
    route: &Route,
    hops: u64,
) -> LinkEnd
    requires { questions_of route.now ≡ route.now ∷ [] }
    ensures { AsksOneLink (L.shows link.old) route.now hops (L.shows link.new) result }
{
    link_end(ask_one(rt, alloc, link, route, route, hops), 0, 0)
}

/// Asks one link for the files of an id.
fn ask_twice<L: Link, Rt: Wait + Sync>(
    rt: &Rt,
    alloc: Global,
    link: &mut L,
    route: &Route,
    id: &BuildId,
    hops: u64,
) -> LinkEnd
    requires { questions_of route.now ≡ wanted.Debuginfo id.now ∷ (wanted.Executable id.now ∷ []) }
    ensures { AsksOneLink (L.shows link.old) route.now hops (L.shows link.new) result }
{
    let first = Route::Debuginfo(*id);
    let second = Route::Executable(*id);
    match ask_one(rt, alloc, link, route, &first, hops) {
        QuestionEnd::Passed(given) => LinkEnd::Passed(given),
        QuestionEnd::OutOfMemory => LinkEnd::OutOfMemory,
        QuestionEnd::Refused => link_end(ask_one(rt, alloc, link, route, &second, hops), 1, 0),
        QuestionEnd::Failed => link_end(ask_one(rt, alloc, link, route, &second, hops), 0, 1),
    }
}

/// The end of a link by its last question, behind so many refused and failed ones.
fn link_end(end: QuestionEnd, refused: u64, failed: u64) -> LinkEnd
    requires { (refused ≤ 1) × (failed ≤ 1) }
    ensures { result ≡ link_end end refused failed }
{
    match end {
        QuestionEnd::Passed(given) => LinkEnd::Passed(given),
        QuestionEnd::Refused => LinkEnd::Nothing {
            refused: refused + 1,
            failed,
        },
        QuestionEnd::Failed => LinkEnd::Nothing {
            refused,
            failed: failed + 1,
        },
        QuestionEnd::OutOfMemory => LinkEnd::OutOfMemory,
    }
}
