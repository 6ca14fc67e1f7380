//! One question to one link.

ghost use Rattle.std.specs.Prelude.{◌≡◌};
ghost use Rattle.answer_check.specs.Passing.{Checks};
ghost use Rattle.federation.specs.Judging.{JudgesBody};
ghost use Rattle.federation.specs.Replies.{class_asked};
ghost use Rattle.federation.specs.Rows.{JudgesOne};

use crate::link::{Link, LinkAnswer};
use answer_check::{Checking, Passed, check};
use row_types::Kind;
use std::alloc::Global;
use std::sync::Wait;
use webapi_routes::Route;

/// What came of one question.
#[derive(Drop)]
pub(crate) enum QuestionEnd {
    /// Its answer passes.
    Passed(Passed),
    /// Its answer doesn't pass.
    Refused,
    /// The link failed.
    Failed,
    /// There was not enough memory.
    OutOfMemory,
}

/// Asks a link a question, for a route.
pub(crate) fn ask_one<L: Link, Rt: Wait + Sync>(
    rt: &Rt,
    alloc: Global,
    link: &mut L,
    route: &Route,
    question: &Route,
    hops: u64,
) -> QuestionEnd
    ensures { JudgesOne (L.shows link.old) route.now question.now hops (L.shows link.new) result }
{
    match link.ask(rt, alloc, question, hops) {
        LinkAnswer::Reply { status, body } => {
            if status == 200 {
                judge(alloc, route, class_asked(question), body)
            } else {
                QuestionEnd::Refused
            }
        }
        LinkAnswer::Failed => QuestionEnd::Failed,
        LinkAnswer::OutOfMemory => QuestionEnd::OutOfMemory,
    }
}

/// Whether the body of an answer passes.
fn judge(alloc: Global, route: &Route, class: Option<Kind>, body: Vec<u8>) -> QuestionEnd
    ensures { JudgesBody route.now class body.items result }
{
    match check(alloc, route, class, body) {
        Checking::Passed(given) => QuestionEnd::Passed(given),
        Checking::Refused => QuestionEnd::Refused,
        Checking::OutOfMemory => QuestionEnd::OutOfMemory,
    }
}

/// The class of the file that a question asks for, where it asks for one.
fn class_asked(question: &Route) -> Option<Kind>
    ensures { result ≡ class_asked question.now }
{
    match question {
        Route::Debuginfo(_) => Some(Kind::Debuginfo),
        Route::Executable(_) => Some(Kind::Executable),
        Route::Source(_, _) | Route::Section(_, _) | Route::Metrics => None,
    }
}
