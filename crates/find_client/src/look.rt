//! What a cache gives for a route.

ghost use Rattle.std.specs.Prelude.{◌≡◌, ◌++◌, IfOk};
ghost use Rattle.std.specs.String.{string_bytes};
ghost use Rattle.federation.specs.Replies.{class_asked, files_of};
ghost use Rattle.hex.specs.Hex.{encode_lower};
ghost use Rattle.find_client.specs.Looks.{LooksFor, LooksOne, name_of};

use crate::cache::{Cache, CacheAnswer};
use answer_check::{Checking, Passed, check};
use row_types::{BuildId, Kind};
use std::alloc::{AllocError, Global};
use webapi_routes::Route;

/// What a cache gave for a route.
#[derive(Drop)]
pub(crate) enum LookEnd {
    /// What it holds passes.
    Passed(Passed),
    /// Nothing that it holds passes; and whether it couldn't be read.
    Nothing { failed: bool },
    /// There was not enough memory.
    OutOfMemory,
}

/// Looks for what a route asks: for a section first in the file with debug information, and then in the
/// executable. A source isn't kept.
pub(crate) fn look_up<H: Cache>(alloc: Global, cache: &mut H, route: &Route) -> LookEnd
    ensures { LooksFor (H.shows cache.old) route.now (files_of route.now) (H.shows cache.new) result }
{
    match route {
        Route::Debuginfo(_) | Route::Executable(_) => look_at(alloc, cache, route, route, false),
        Route::Section(id, _) => {
            match look_at(alloc, cache, route, &Route::Debuginfo(*id), false) {
                LookEnd::Nothing { failed } => {
                    look_at(alloc, cache, route, &Route::Executable(*id), failed)
                }
                end => end,
            }
        }
        Route::Source(_, _) | Route::Metrics => LookEnd::Nothing { failed: false },
    }
}

/// Looks at what is held as one file, for a route; whether the cache couldn't be read before is handed on.
fn look_at<H: Cache>(
    alloc: Global,
    cache: &mut H,
    route: &Route,
    file: &Route,
    failed: bool,
) -> LookEnd
    ensures { LooksOne (H.shows cache.old) route.now file.now failed (H.shows cache.new) result }
{
    let Ok(name) = name_of(alloc, file) else {
        return LookEnd::OutOfMemory;
    };
    match cache.get(alloc, name.as_str()) {
        CacheAnswer::Held(bytes) => match check(alloc, route, class_asked(file), bytes) {
            Checking::Passed(given) => LookEnd::Passed(given),
            Checking::Refused => LookEnd::Nothing { failed },
            Checking::OutOfMemory => LookEnd::OutOfMemory,
        },
        CacheAnswer::Absent => LookEnd::Nothing { failed },
        CacheAnswer::Failed => LookEnd::Nothing { failed: true },
        CacheAnswer::OutOfMemory => LookEnd::OutOfMemory,
    }
}

/// The name of a file's entry: its id and its class.
pub(crate) fn name_of(alloc: Global, file: &Route) -> Result<String, AllocError>
    ensures { IfOk result (λ name. string_bytes name ≡ name_of file.now) }
{
    match file {
        Route::Debuginfo(id) => named(alloc, id, "-debuginfo"),
        Route::Executable(id) => named(alloc, id, "-executable"),
        Route::Source(_, _) | Route::Section(_, _) | Route::Metrics => Ok(String::new(alloc)),
    }
}

/// The digits of an id with an ending.
fn named(alloc: Global, id: &BuildId, ending: &str) -> Result<String, AllocError>
    ensures { IfOk result (λ name. string_bytes name ≡ encode_lower id.now ++ ending.now) }
{
    let mut name = id.print(alloc)?;
    name.push_str(ending)?;
    Ok(name)
}

/// The class of the file that is asked for, where one is.
fn class_asked(file: &Route) -> Option<Kind>
    ensures { result ≡ class_asked file.now }
{
    match file {
        Route::Debuginfo(_) => Some(Kind::Debuginfo),
        Route::Executable(_) => Some(Kind::Executable),
        Route::Source(_, _) | Route::Section(_, _) | Route::Metrics => None,
    }
}
