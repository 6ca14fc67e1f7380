//! The target of a route.

ghost use Rattle.std.specs.Prelude.{◌≡◌, ◌++◌, ◌<◌, All, IfOk, OnOk, Ok, length};
ghost use Rattle.std.specs.String.{string_bytes};
ghost use Rattle.hex.specs.Hex.{IsBytes, encode_lower};
ghost use Rattle.row_types.specs.BuildId.{IsIdLength};
ghost use Rattle.webapi_routes.specs.Printed.{CanBeAsked, IsIdBytes, IsRouteText, IsSourcePath};
ghost use Rattle.webapi_routes.specs.Printed.{escaped_target, id_path, printed};
ghost use Rattle.webapi_routes.specs.Targets.{TargetSays};
ghost use Rattle.webapi_routes.specs.Written.{source, wanted_text};

use crate::route::Route;
use percent_encoding::{AsciiSet, NON_ALPHANUMERIC, ascii_set, percent_encode};
use row_types::{BuildId, CanonPath};
use std::alloc::{AllocError, Global};

/// The bytes of a path that are escaped, beside those outside ASCII.
const ESCAPED: AsciiSet = ascii_set!(
    NON_ALPHANUMERIC
        .remove(b'-')
        .remove(b'.')
        .remove(b'_')
        .remove(b'~')
        .remove(b'/')
);

/// The target of a route, as bytes of ASCII.
pub fn print(alloc: Global, route: &Route) -> Result<Vec<u8>, AllocError>
    ensures text { IfOk result (λ target. target.items ≡ printed route.now) }
    ensures back { IfOk result (λ target. CanBeAsked route.now
        → TargetSays target.items (Ok route.now)) }
{
    let text = route_text(alloc, route)?;
    let mut target = String::new(alloc);
    push_escaped(&mut target, text.as_slice())?;
    Ok(target.into_bytes())
}

/// Adds the bytes of a text, with an escape for each that doesn't stand for itself.
fn push_escaped(target: &mut String, text: &[u8]) -> Result<(), AllocError>
    ensures value { OnOk result
        (string_bytes target.new ≡ string_bytes target.old ++ escaped_target text.now) }
    ensures small { OnOk result (All (λ b. b < 256) text.now) }
{
    percent_encode(text, ESCAPED).append_to(target)?;
    Ok(())
}

/// The text of a route's path.
#[tactic(auto, unfolding(crate::specs::Printed::route_text))]
fn route_text(alloc: Global, route: &Route) -> Result<Vec<u8>, AllocError>
    ensures { IfOk result (λ text. IsRouteText route.now text.items) }
{
    match route {
        Route::Debuginfo(id) => id_text(alloc, id, b"debuginfo"),
        Route::Executable(id) => id_text(alloc, id, b"executable"),
        Route::Source(id, path) => source_text(alloc, id, path),
        Route::Section(id, name) => long_text(alloc, id, b"section/", name.bytes()),
        Route::Metrics => Vec::from_slice(alloc, b"/metrics"),
    }
}

/// The text of the path of a source.
fn source_text(alloc: Global, id: &BuildId, path: &CanonPath) -> Result<Vec<u8>, AllocError>
    ensures text { IfOk result (λ text.
        text.items ≡ id_path id.now (wanted_text (source path.now))) }
    ensures id { IfOk result (λ text. IsIdBytes id.now) }
    ensures path { IsSourcePath path.now }
{
    long_text(alloc, id, b"source", path.text().as_bytes())
}

/// The text of the path of an id, behind which two pieces stand.
fn long_text(
    alloc: Global,
    id: &BuildId,
    first: &[u8],
    second: &[u8],
) -> Result<Vec<u8>, AllocError>
    ensures text { IfOk result (λ text.
        text.items ≡ id_path id.now (first.now ++ second.now)) }
    ensures id { IfOk result (λ text. IsIdBytes id.now) }
{
    let mut text = id_text(alloc, id, first)?;
    text.extend_from_slice(second)?;
    Ok(text)
}

/// The text of the path of an id, behind which these bytes stand.
fn id_text(alloc: Global, id: &BuildId, behind: &[u8]) -> Result<Vec<u8>, AllocError>
    ensures text { IfOk result (λ text. text.items ≡ id_path id.now behind.now) }
    ensures id { IfOk result (λ text. IsIdBytes id.now) }
{
    let mut text = Vec::new(alloc);
    text.extend_from_slice(b"/buildid/")?;
    push_id(&mut text, alloc, id)?;
    text.extend_from_slice(b"/")?;
    text.extend_from_slice(behind)?;
    Ok(text)
}

/// Adds an id in hexadecimal digits, in lower case.
fn push_id(text: &mut Vec<u8>, alloc: Global, id: &BuildId) -> Result<(), AllocError>
    ensures digits { OnOk result (text.new.items ≡ text.old.items ++ encode_lower id.now) }
    ensures sized { OnOk result (IsIdLength (length id.now)) }
    ensures small { OnOk result (IsBytes id.now) }
{
    push_digits(text, alloc, id.bytes())
}

/// Adds bytes in hexadecimal digits, in lower case.
fn push_digits(text: &mut Vec<u8>, alloc: Global, bytes: &[u8]) -> Result<(), AllocError>
    ensures digits { OnOk result (text.new.items ≡ text.old.items ++ encode_lower bytes.now) }
    ensures small { OnOk result (IsBytes bytes.now) }
{
    let digits = hex::encode(alloc, bytes)?;
    text.extend_from_slice(digits.as_bytes())?;
    Ok(())
}
