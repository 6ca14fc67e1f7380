//! The check of a file that was opened, by what was read of it.

ghost use Rattle.std.specs.Prelude.{◌≡◌, false, Some, IfNone, IfOk, IfSome};
ghost use Rattle.std.specs.Bool.{OnFalse, OnTrue};
ghost use Rattle.file_formats.specs.Parts.{IsSomeSection};
ghost use Rattle.file_formats.specs.Windows.{IsSomeWindow};
ghost use Rattle.file_parts.specs.Wholes.{IsThereWhole};
ghost use Rattle.answer_check.specs.CheckedSection.{HasSectionSeen, checked_section};
ghost use Rattle.answer_core.specs.Fits.{FindsSection, FitsFile, FitsOpened, HasNoSection};
ghost use Rattle.answer_core.specs.Fits.{IsCertifiedAs, IsCheckedOf, IsNoneCertified};
ghost use Rattle.answer_core.specs.Given.{asks_source, needs_for};
ghost use Rattle.webapi_routes.specs.declared.route.Route.TheVariants as route;

use crate::given::{Given, Tried};
use answer_check::{Checked, CheckedSection, check_view};
use file_parts::section_known;
use file_picture::Picture;
use row_types::{BuildId, Kind, Truth};
use std::alloc::{AllocError, Global};
use tree_trait::Opened;
use webapi_routes::{Route, SectionName};

/// What is found of the section of a name.
#[derive(Drop)]
pub(crate) enum SectionFound {
    /// The section, in its file.
    Found(CheckedSection),
    /// No file that agrees with the picture has it.
    Missing,
    /// There was not enough memory for the name.
    OutOfMemory,
}

/// Checks an open file, of which all was read that the answer to the route rests on: as the file of
/// the route, or as one of the candidate's class that has the route's section.
pub(crate) fn check_opened<W: Truth, F: Drop>(
    alloc: Global,
    route: &Route,
    class: Option<Kind>,
    opened: Opened<W, F>,
) -> Tried<F>
    requires file { asks_source route.now ≡ false }
    requires there { IsThereWhole (needs_for route.now) opened.picture }
    ensures { FitsOpened route.now class opened result }
{
    match route {
        Route::Debuginfo(id) => check_file(Kind::Debuginfo, id, opened),
        Route::Executable(id) => check_file(Kind::Executable, id, opened),
        Route::Section(id, name) => check_section(alloc, class, id, name, opened),
        Route::Source(_, _) => unreachable!(),
        Route::Metrics => Tried::Refused,
    }
}

/// Checks an open file as one of this class and build-id.
fn check_file<W: Truth, F: Drop>(kind: Kind, id: &BuildId, opened: Opened<W, F>) -> Tried<F>
    requires { IsThereWhole IsSomeWindow opened.picture }
    ensures { FitsFile kind id.now opened result }
{
    match certified(kind, id, opened) {
        Some((from, file)) => Tried::Passed(Given::File { from, file }),
        None => Tried::Refused,
    }
}

/// Certifies an open file of which all windows were read, where it is of this class and build-id.
fn certified<W: Truth, F: Drop>(
    kind: Kind,
    id: &BuildId,
    opened: Opened<W, F>,
) -> Option<(Checked, F)>
    requires { IsThereWhole IsSomeWindow opened.picture }
    ensures some { IfSome result (λ x. IsCheckedOf kind id.now opened x.0 x.1) }
    ensures none { IfNone result (IsNoneCertified kind id.now opened.picture) }
{
    let (file, picture) = opened.into_file();
    match certified_picture(kind, id, picture) {
        Some(from) => Some((from, file)),
        None => None,
    }
}

/// Certifies a picture that has all windows, where each file that agrees is of this class and build-id.
fn certified_picture(kind: Kind, id: &BuildId, picture: Picture) -> Option<Checked>
    requires { IsThereWhole IsSomeWindow picture }
    ensures some { IfSome result (λ x. IsCertifiedAs kind id.now picture x) }
    ensures none { IfNone result (IsNoneCertified kind id.now picture) }
{
    // For its clause: the pieces of a picture neither overlap nor touch.
    let _size = picture.size();
    match check_view(kind, id, picture) {
        Ok(from) => Some(from),
        Err(_) => None,
    }
}

/// Checks an open file as one of the candidate's class and the build-id that has the section. A
/// candidate without a class has none.
fn check_section<W: Truth, F: Drop>(
    alloc: Global,
    class: Option<Kind>,
    id: &BuildId,
    name: &SectionName,
    opened: Opened<W, F>,
) -> Tried<F>
    requires { IsThereWhole (IsSomeSection name.now) opened.picture }
    ensures { FitsOpened (route.Section id.now name.now) class opened result }
{
    match class {
        Some(kind) => check_named(alloc, kind, id, name, opened),
        None => Tried::Refused,
    }
}

/// Checks an open file as one of this class and build-id that has the section. The file is closed:
/// the section stands in its picture.
fn check_named<W: Truth, F: Drop>(
    alloc: Global,
    kind: Kind,
    id: &BuildId,
    name: &SectionName,
    opened: Opened<W, F>,
) -> Tried<F>
    requires { IsThereWhole (IsSomeSection name.now) opened.picture }
    ensures { FitsOpened (route.Section id.now name.now) (Some kind) opened result }
{
    let Some((from, _)) = certified(kind, id, opened) else {
        return Tried::Refused;
    };
    match section_in(alloc, from, name) {
        SectionFound::Found(section) => Tried::Passed(Given::Section(section)),
        SectionFound::Missing => Tried::Refused,
        SectionFound::OutOfMemory => Tried::OutOfMemory,
    }
}

/// The section of a checked file, of which all was read that it rests on.
fn section_in(alloc: Global, from: Checked, name: &SectionName) -> SectionFound
    requires { IsThereWhole (IsSomeSection name.now) from.picture }
    ensures { FindsSection from name.now result }
{
    if !has_section(&from, name) {
        return SectionFound::Missing;
    }
    match copy_name(alloc, name) {
        Ok(name) => SectionFound::Found(CheckedSection::new(from, name)),
        Err(_) => SectionFound::OutOfMemory,
    }
}

/// Whether a checked file has the section, of which all was read that it rests on.
fn has_section(from: &Checked, name: &SectionName) -> bool
    requires { IsThereWhole (IsSomeSection name.now) from.now.picture }
    ensures yes { OnTrue result (HasSectionSeen (checked_section from.now name.now)) }
    ensures no { OnFalse result (HasNoSection name.now from.now.picture) }
{
    match section_known(from.picture(), name.bytes()) {
        Some(_) => true,
        None => false,
    }
}

/// A copy of a section's name.
fn copy_name(alloc: Global, name: &SectionName) -> Result<SectionName, AllocError>
    ensures { IfOk result (λ copy. copy ≡ name.now) }
{
    Ok(SectionName::new(Vec::from_slice(alloc, name.bytes())?))
}
