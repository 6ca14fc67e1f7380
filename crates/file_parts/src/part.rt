//! What an answer on a file rests on.

ghost use Rattle.std.specs.Prelude.{MatchOption};
ghost use Rattle.file_formats.specs.Parts.{IsSomePart, IsSomeSection};
ghost use Rattle.file_formats.specs.Windows.{IsSomeWindow};
ghost use Rattle.file_picture.specs.Passed.{HasPassed};
ghost use Rattle.elf_classify.specs.DebugViews.{KnowsIdentity};
ghost use Rattle.file_parts.specs.Found.{StepsTo};
ghost use Rattle.file_parts.specs.Wholes.{IsThereWhole, NeedsRange, needs_of};

use elf_classify::{IdentStep, PartsView, SectionStep, ident_from, parts_view, section_from};
use file_picture::Picture;

/// What an answer on a file rests on.
#[derive(Clone, Copy)]
pub enum FilePart<'a> {
    /// The file's identity.
    Identity,
    /// Its identity, and the sections that its debug information stands in.
    Debug,
    /// Its identity, and its section of a name.
    Section(&'a [u8]),
}

/// A range that is needed and isn't there.
#[derive(Clone, Copy)]
pub(crate) struct PartNeed {
    /// Where it begins, in bytes from the file's start.
    pub at: u64,
    /// How many bytes it has.
    pub len: u64,
    /// The index of the section from which to look on for a build-id, once they are there.
    pub next: u64,
}

/// What comes next of the reading of a file, its windows first.
#[derive(Clone, Copy)]
pub(crate) enum PartStep {
    /// A window that isn't there.
    Window(PartNeed),
    /// Another range that isn't there, where all windows are.
    Rest(PartNeed),
    /// Nothing is left.
    Whole,
}

/// What comes next of the reading of a file. No section before one is looked at for a build-id.
pub(crate) fn next_step(picture: &Picture, part: FilePart<'_>, from: u64) -> PartStep
    requires { HasPassed picture.now from }
    ensures { StepsTo (needs_of part.entry) picture.now result }
{
    match ident_from(picture, from) {
        IdentStep::Need { at, len, next } => PartStep::Window(PartNeed { at, len, next }),
        IdentStep::Ident(_) => rest_step(picture, part, from),
        IdentStep::Plain(_) => rest_step(picture, part, from),
    }
}

/// The same, where all windows are there.
fn rest_step(picture: &Picture, part: FilePart<'_>, from: u64) -> PartStep
    requires windows { IsThereWhole IsSomeWindow picture.now }
    requires passed { HasPassed picture.now from }
    ensures { StepsTo (needs_of part.entry) picture.now result }
{
    match next_need(picture, part, from) {
        Some(need) => PartStep::Rest(need),
        None => PartStep::Whole,
    }
}

/// A range that is needed and isn't there, if there is one. No section before one is looked at for a
/// build-id.
pub(crate) fn next_need(picture: &Picture, part: FilePart<'_>, from: u64) -> Option<PartNeed>
    requires { HasPassed picture.now from }
    ensures { MatchOption result (IsThereWhole (needs_of part.entry) picture.now)
        (NeedsRange (needs_of part.entry) picture.now) }
{
    match part {
        FilePart::Identity => identity_need(picture, from),
        FilePart::Debug => debug_need(picture, from),
        FilePart::Section(name) => section_need(picture, name, from),
    }
}

/// A window that isn't there.
fn identity_need(picture: &Picture, from: u64) -> Option<PartNeed>
    requires { HasPassed picture.now from }
    ensures { MatchOption result (IsThereWhole IsSomeWindow picture.now)
        (NeedsRange IsSomeWindow picture.now) }
{
    match ident_from(picture, from) {
        IdentStep::Need { at, len, next } => Some(PartNeed { at, len, next }),
        IdentStep::Ident(_) => None,
        IdentStep::Plain(_) => None,
    }
}

/// A part that isn't there. A file without an identity has no other parts than its windows.
fn debug_need(picture: &Picture, from: u64) -> Option<PartNeed>
    requires { HasPassed picture.now from }
    ensures { MatchOption result (IsThereWhole IsSomePart picture.now)
        (NeedsRange IsSomePart picture.now) }
{
    match ident_from(picture, from) {
        IdentStep::Need { at, len, next } => Some(PartNeed { at, len, next }),
        IdentStep::Ident(_) => parts_need(picture, from),
        IdentStep::Plain(_) => None,
    }
}

/// A part that isn't there, of a file with an identity.
fn parts_need(picture: &Picture, from: u64) -> Option<PartNeed>
    requires known { KnowsIdentity picture.now }
    requires passed { HasPassed picture.now from }
    ensures { MatchOption result (IsThereWhole IsSomePart picture.now)
        (NeedsRange IsSomePart picture.now) }
{
    match parts_view(picture) {
        PartsView::Need { at, len } => Some(PartNeed {
            at,
            len,
            next: from,
        }),
        PartsView::Parts(_) => None,
    }
}

/// A window, or the section of a name, that isn't there.
fn section_need(picture: &Picture, name: &[u8], from: u64) -> Option<PartNeed>
    requires { HasPassed picture.now from }
    ensures { MatchOption result (IsThereWhole (IsSomeSection name.now) picture.now)
        (NeedsRange (IsSomeSection name.now) picture.now) }
{
    match section_from(picture, name, from) {
        SectionStep::Need { at, len, next } => Some(PartNeed { at, len, next }),
        SectionStep::Section(_) => None,
    }
}
