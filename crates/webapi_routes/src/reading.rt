//! What a target asks for.

ghost use Rattle.std.specs.Prelude.{◌≡◌, true, Result, IfOk};
ghost use Rattle.row_types.specs.Absolute.{is_absolute};
ghost use Rattle.row_types.specs.Limits.{ArePinnedIdLengths, ArePinnedPathLimits};
ghost use Rattle.webapi_routes.specs.Targets.{IdTextSays, IsSaidBy, PathSays, TargetSays, TextSays};
ghost use Rattle.webapi_routes.specs.Targets.{UnlessMemory};
ghost use Rattle.webapi_routes.specs.Parts.{Makes, seen};
ghost use Rattle.webapi_routes.specs.Written.{IsWantedValid, source};
ghost use Rattle.webapi_routes.specs.declared.fault.RouteFault.{RouteFault};
ghost use Rattle.webapi_routes.specs.declared.route.Route.{Route};

use crate::fault::{RouteFault, SpellFault};
use crate::route::Route;
use crate::section_name::SectionName;
use crate::target::{before_query, spelled};
use crate::written::{Written, parts_of};
use path_scope::{PathFault, canonical};
use row_types::BuildId;
use std::alloc::{AllocError, Global};

/// The route that a target asks for, or the first of its faults.
pub fn parse(alloc: Global, target: &[u8]) -> Result<Route, RouteFault>
    ensures says { IsSaidBy target.now result }
    ensures only { (answer : Result Route RouteFault) → TargetSays target.now answer
        → UnlessMemory result (result ≡ answer) }
    ensures lengths { ArePinnedIdLengths }
    ensures limits { ArePinnedPathLimits }
{
    parse_path(alloc, before_query(target))
}

/// The route that a path asks for.
fn parse_path(alloc: Global, path: &[u8]) -> Result<Route, RouteFault>
    ensures { UnlessMemory result (PathSays path.now result) }
{
    match spelled(alloc, path) {
        Ok(text) => parse_text(alloc, text.as_str()),
        Err(SpellFault::BadEscape) => Err(RouteFault::BadEscape),
        Err(SpellFault::OutOfMemory) => Err(RouteFault::OutOfMemory),
    }
}

/// The route that a path's text asks for.
#[tactic(auto, using(crate::proofs::TargetLemmas::text_says))]
fn parse_text(alloc: Global, text: &str) -> Result<Route, RouteFault>
    ensures { UnlessMemory result (TextSays text.now result) }
{
    match text {
        "/metrics" => Ok(Route::Metrics),
        _ => parse_id_text(alloc, text),
    }
}

/// The route that a path's text asks for, of a build-id.
fn parse_id_text(alloc: Global, text: &str) -> Result<Route, RouteFault>
    ensures { UnlessMemory result (IdTextSays text.now result) }
{
    let Some((hex, wanted)) = parts_of(text) else {
        return Err(RouteFault::NoRoute);
    };
    let Some(id) = BuildId::parse(hex.as_bytes()) else {
        return Err(RouteFault::BadId);
    };
    route_of(alloc, id, wanted)
}

/// The route of an id, and of what is asked of it.
fn route_of(alloc: Global, id: BuildId, wanted: Written<'_>) -> Result<Route, RouteFault>
    requires { IsWantedValid (seen wanted) }
    ensures { Makes id (seen wanted.entry) result }
{
    match wanted {
        Written::Debuginfo => Ok(Route::Debuginfo(id)),
        Written::Executable => Ok(Route::Executable(id)),
        Written::Source(path) => source_route(alloc, id, path),
        Written::Section(name) => Ok(Route::Section(id, section_name(alloc, name)?)),
    }
}

/// The route of a source.
fn source_route(alloc: Global, id: BuildId, path: &str) -> Result<Route, RouteFault>
    requires { is_absolute path.now ≡ true }
    ensures { Makes id (source path.now) result }
{
    match canonical(alloc, path) {
        Ok(path) => Ok(Route::Source(id, path)),
        Err(PathFault::TooLong) => Err(RouteFault::BadPath),
        Err(PathFault::OutOfMemory) => Err(RouteFault::OutOfMemory),
        Err(PathFault::NotAbsolute) => unreachable!(),
    }
}

/// The name of a section.
fn section_name(alloc: Global, name: &str) -> Result<SectionName, AllocError>
    ensures { IfOk result (λ same. same ≡ name.now) }
{
    let mut bytes = Vec::new(alloc);
    bytes.extend_from_slice(name.as_bytes())?;
    Ok(SectionName::new(bytes))
}
