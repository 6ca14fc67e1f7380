//! Whether the bytes of a file pass as an answer to a route.

ghost use Rattle.std.specs.Prelude.{◌≡◌, Some, IfOk};
ghost use Rattle.answer_check.specs.Certified.{IsCertified};
ghost use Rattle.answer_check.specs.Passing.{Checks, ChecksFile};
ghost use Rattle.webapi_routes.specs.declared.route.Route.TheVariants as route;

use crate::certified::{Certified, certify};
use crate::file_section::FileSection;
use crate::passed::Passed;
use row_types::{BuildId, Kind};
use std::alloc::{AllocError, Global};
use webapi_routes::{Route, SectionName};

/// What came of the check of bytes.
#[derive(Drop)]
pub enum Checking {
    /// They pass.
    Passed(Passed),
    /// They don't.
    Refused,
    /// There was not enough memory.
    OutOfMemory,
}

/// Whether bytes pass as an answer to a route: for a file those of the route's class and id, for a
/// section those of a file of the id and of this class that has it, for a source any, for the
/// counters none. They aren't copied.
pub fn check(alloc: Global, route: &Route, class: Option<Kind>, bytes: Vec<u8>) -> Checking
    ensures { Checks route.now class bytes.items result }
{
    match (route, class) {
        (Route::Debuginfo(id), _) => check_file(Kind::Debuginfo, id, bytes),
        (Route::Executable(id), _) => check_file(Kind::Executable, id, bytes),
        (Route::Section(id, name), Some(kind)) => check_section(alloc, kind, id, name, bytes),
        (Route::Section(_, _), None) => Checking::Refused,
        (Route::Source(_, _), _) => Checking::Passed(Passed::Source(bytes)),
        (Route::Metrics, _) => Checking::Refused,
    }
}

/// Checks the bytes of a file that is to have this class and id.
fn check_file(class: Kind, id: &BuildId, bytes: Vec<u8>) -> Checking
    ensures { ChecksFile class id.now bytes.items result }
{
    match certify(class, id, bytes) {
        Ok(file) => Checking::Passed(Passed::File(file)),
        Err(_) => Checking::Refused,
    }
}

/// Checks the bytes of a file that is to have this class and id, and this section.
fn check_section(
    alloc: Global,
    class: Kind,
    id: &BuildId,
    name: &SectionName,
    bytes: Vec<u8>,
) -> Checking
    ensures { Checks (route.Section id.now name.now) (Some class) bytes.items result }
{
    match certify(class, id, bytes) {
        Ok(file) => section_of(alloc, file, name),
        Err(_) => Checking::Refused,
    }
}

/// Looks for the section of a certified file.
fn section_of(alloc: Global, file: Certified, name: &SectionName) -> Checking
    requires { IsCertified file.kind file.id file.bytes }
    ensures { Checks (route.Section file.id name.now) (Some file.kind) file.bytes result }
{
    if file.section(name.bytes()).is_none() {
        return Checking::Refused;
    }
    match copy_name(alloc, name) {
        Ok(name) => Checking::Passed(Passed::Section(FileSection::new(file, name))),
        Err(_) => Checking::OutOfMemory,
    }
}

/// A copy of a section's name.
fn copy_name(alloc: Global, name: &SectionName) -> Result<SectionName, AllocError>
    ensures { IfOk result (λ copy. copy ≡ name.now) }
{
    Ok(SectionName::new(Vec::from_slice(alloc, name.bytes())?))
}
