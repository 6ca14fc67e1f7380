//! A file's identity: its build-id, and whether it holds code and debug information.

ghost use Rattle.std.specs.Prelude.{◌≡◌, ◌≢◌, ◌↔◌, ◌<◌, ℕ, List, Result, Err, IsTrue, IfNone, IfSome};
ghost use Rattle.file_formats.specs.Identity.{HasCode, HasDebug, Identity, IsIdentity, is_code, is_debug, why_of_fault};
ghost use Rattle.file_formats.specs.Table.{given_name};
ghost use Rattle.file_picture.specs.Agrees.{filled_with_zeros};
ghost use Rattle.file_picture.specs.Passed.{HasPassed};
ghost use Rattle.elf_classify.specs.Views.{SaysIdentity, SaysStep, SeesStep};

use crate::ids::build_id;
use elf_file::{ElfFault, ElfView, Stop};
use file_formats::{ET_CORE, SHF_ALLOC, SHT_PROGBITS, SectionHeader};
use file_picture::{Picture, View};
use row_types::{Ident, Why};

/// What a fault of the table is called of a file.
fn reason(fault: ElfFault) -> Why
    ensures { result ≡ why_of_fault fault }
{
    match fault {
        ElfFault::NotElf => Why::NotElf,
        ElfFault::NoSections => Why::NoSections,
        ElfFault::BadHead | ElfFault::BadTable | ElfFault::BadNames => Why::BadElf,
    }
}

/// Whether a section is code.
fn holds_code(header: &SectionHeader) -> bool
    ensures { result ≡ is_code header.now }
{
    header.sh_type == SHT_PROGBITS && header.is_flagged(SHF_ALLOC)
}

/// Whether a section is one of debug information.
fn holds_debug(file: &ElfView<'_>, header: &SectionHeader) -> bool
    ensures { result ≡ is_debug
        header.now (given_name (filled_with_zeros file.now.file) file.now.table header.now) }
{
    !header.takes_no_bytes() && file.has_name_with(header, b".debug_")
}

/// Whether some section is code.
fn has_code(file: &ElfView<'_>) -> bool
    ensures { IsTrue result ↔ HasCode (filled_with_zeros file.now.file) file.now.table }
{
    for index in 1..file.count() {
        if holds_code(&file.header(index)) {
            return true;
        }
    }
    false
}

/// Whether some section is one of debug information.
fn has_debug(file: &ElfView<'_>) -> bool
    ensures { IsTrue result ↔ HasDebug (filled_with_zeros file.now.file) file.now.table }
{
    for index in 1..file.count() {
        if holds_debug(file, &file.header(index)) {
            return true;
        }
    }
    false
}

/// What a picture says of a file's identity.
#[derive(Clone, Copy, PartialEq, Eq)]
pub enum IdentView {
    /// These bytes are needed, and aren't there.
    Need {
        /// Where they begin, in bytes from the file's start.
        at: u64,
        /// How many they are.
        len: u64,
    },
    /// The file has this identity.
    Ident(Ident),
    /// It has none, for this reason.
    Plain(Why),
}

/// The same, with the place to go on from.
#[derive(Clone, Copy, PartialEq, Eq)]
pub enum IdentStep {
    /// These bytes are needed, and aren't there.
    Need {
        /// Where they begin, in bytes from the file's start.
        at: u64,
        /// How many they are.
        len: u64,
        /// The index of the section from which to look on, once they are there.
        next: u64,
    },
    /// The file has this identity.
    Ident(Ident),
    /// It has none, for this reason.
    Plain(Why),
}

/// The identity of a file of which parts are there, by the definition, or what it needs. No section
/// before one is looked at for a build-id.
fn identity(seen: View<'_>, from: u64) -> IdentStep
    requires { HasPassed seen from }
    ensures { SeesStep seen.entry result }
{
    // For its clause: the pieces of a picture neither overlap nor touch.
    let _size = seen.size();
    let file = match ElfView::open(seen) {
        Ok(file) => file,
        Err(Stop::Need(need)) => {
            return IdentStep::Need {
                at: need.at,
                len: need.len,
                next: from,
            };
        }
        Err(Stop::Fault(fault)) => return IdentStep::Plain(reason(fault)),
    };
    if file.kind() == ET_CORE {
        return IdentStep::Plain(Why::Core);
    }
    match build_id(&file, from) {
        Ok(Some(id)) => IdentStep::Ident(Ident {
            id,
            exec: has_code(&file),
            debug: has_debug(&file),
        }),
        Ok(None) => IdentStep::Plain(Why::NoBuildId),
        Err(stop) => IdentStep::Need {
            at: stop.need.at,
            len: stop.need.len,
            next: stop.from,
        },
    }
}

/// The identity of a file, or the first reason why it has none. It takes no memory.
pub fn ident(bytes: &[u8]) -> Result<Ident, Why>
    ensures answer { IsIdentity bytes.now result }
    ensures only { (r : Result Identity Why) → IsIdentity bytes.now r → result ≡ r }
    ensures not_too_large { result ≢ Err Why.TooLarge }
{
    match identity(View::whole(bytes), 1) {
        IdentStep::Ident(ident) => Ok(ident),
        IdentStep::Plain(why) => Err(why),
        IdentStep::Need { .. } => unreachable!(),
    }
}

/// The identity of each file that agrees with a picture, or the first reason why it has none, where
/// all its windows are there; else one of these that isn't. It takes no memory.
pub fn ident_view(picture: &Picture) -> IdentView
    ensures { SaysIdentity picture.now result }
{
    match ident_from(picture, 1) {
        IdentStep::Need { at, len, .. } => IdentView::Need { at, len },
        IdentStep::Ident(ident) => IdentView::Ident(ident),
        IdentStep::Plain(why) => IdentView::Plain(why),
    }
}

/// The same, where no section before one need be looked at for a build-id, as an earlier answer for a
/// picture said of which nothing was lost since. It takes no memory.
pub fn ident_from(picture: &Picture, from: u64) -> IdentStep
    requires { HasPassed picture.now from }
    ensures { SaysStep picture.now result }
{
    identity(View::part(picture), from)
}
