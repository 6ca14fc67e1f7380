//! What a file is found to be, by its bytes and by a picture of it.

ghost use Rattle.std.specs.Prelude.{◌≤◌, Ok, IfOk, length};
ghost use Rattle.file_formats.specs.Parts.{IsSomePart};
ghost use Rattle.file_formats.specs.Windows.{IsSomeWindow};
ghost use Rattle.file_picture.specs.Agrees.{AsksOf};
ghost use Rattle.file_picture.specs.Passed.{HasPassed};
ghost use Rattle.file_picture.specs.ReadSoFar.{IsReadSoFar};
ghost use Rattle.row_types.specs.Reading.{ReadsBytes};
ghost use Rattle.row_types.specs.declared.limits.TheConstants.{READ_LIMIT};
ghost use Rattle.elf_classify.specs.DebugViews.{KnowsIdentity};
ghost use Rattle.elf_classify.specs.Views.{IsIdentityOfEach};
ghost use Rattle.elf_reading.specs.RowViews.{CoversMore, SaysReading};

use crate::sources::sources_of;
use elf_classify::{
    IdentStep, PartsView, debug_parts, debug_places, ident, ident_from, parts_view,
};
use file_picture::{Picture, known_with, known_with_all};
use row_types::{Ident, READ_LIMIT, Reading, Sources, Why};
use std::alloc::{AllocError, Global};

/// What bytes are found to be, of which there are no more than may be read.
pub(crate) fn reading_of(alloc: Global, bytes: &[u8]) -> Result<Reading, AllocError>
    requires { length bytes.now ≤ READ_LIMIT }
    ensures { IfOk result (ReadsBytes bytes.now) }
{
    match ident(bytes) {
        Ok(ident) => {
            let sources = sources_of(alloc, debug_parts(bytes))?;
            Ok(Reading::Elf { ident, sources })
        }
        Err(why) => Ok(Reading::Plain(why)),
    }
}

/// What a picture says of what its files are found to be.
#[derive(Drop)]
pub enum ReadingView {
    /// These bytes are needed, and aren't there.
    Need {
        /// Where they begin, in bytes from the file's start.
        at: u64,
        /// How many they are.
        len: u64,
        /// The index of the section from which to look on for a build-id, once they are there.
        next: u64,
    },
    /// They are found to be this.
    Read(Reading),
    /// Memory was refused for the sources.
    OutOfMemory,
}

/// What each file that agrees with a picture is found to be, as soon as what is known and what is
/// asked for decide it; else a part that isn't there, and with which no more than [`READ_LIMIT`] bytes
/// are known. No section before one is looked at for a build-id.
pub(crate) fn reading_seen(alloc: Global, picture: &Picture, from: u64) -> ReadingView
    requires passed { HasPassed picture.now from }
    requires read { IsReadSoFar READ_LIMIT picture.now }
    ensures { SaysReading READ_LIMIT picture.now result }
{
    reading_within(alloc, picture, from, READ_LIMIT)
}

/// The same, where at most `limit` bytes of a file may be read.
pub fn reading_within(alloc: Global, picture: &Picture, from: u64, limit: u64) -> ReadingView
    requires passed { HasPassed picture.now from }
    requires read { IsReadSoFar limit picture.now }
    ensures { SaysReading limit picture.now result }
{
    // For its clause: the pieces of a picture neither overlap nor touch.
    let _size = picture.size();
    match ident_from(picture, from) {
        IdentStep::Need { at, len, next } => window_needed(picture, at, len, next, limit),
        IdentStep::Ident(ident) => elf_seen(alloc, picture, ident, from, limit),
        IdentStep::Plain(why) => ReadingView::Read(Reading::Plain(why)),
    }
}

/// The answer where a window is needed: too large, where those so far cover too much with it.
fn window_needed(picture: &Picture, at: u64, len: u64, next: u64, limit: u64) -> ReadingView
    requires asks { AsksOf IsSomeWindow picture.now at len }
    requires passed { HasPassed picture.now next }
    requires read { IsReadSoFar limit picture.now }
    ensures { SaysReading limit picture.now result }
{
    // For its clause: the pieces of a picture neither overlap nor touch.
    let _size = picture.size();
    if known_with(picture, at, len) > limit {
        return ReadingView::Read(Reading::Plain(Why::TooLarge));
    }
    ReadingView::Need { at, len, next }
}

/// The answer for a picture whose files have this identity.
fn elf_seen(alloc: Global, picture: &Picture, ident: Ident, from: u64, limit: u64) -> ReadingView
    requires known { IsIdentityOfEach picture.now (Ok ident) }
    requires passed { HasPassed picture.now from }
    requires read { IsReadSoFar limit picture.now }
    ensures { SaysReading limit picture.now result }
{
    // For its clause: the pieces of a picture neither overlap nor touch.
    let _size = picture.size();
    match parts_view(picture) {
        PartsView::Need { at, len } => {
            if covers_more(picture, limit) {
                return ReadingView::Read(Reading::Elf {
                    ident,
                    sources: Sources::new(alloc),
                });
            }
            ReadingView::Need {
                at,
                len,
                next: from,
            }
        }
        PartsView::Parts(parts) => match sources_of(alloc, parts) {
            Ok(sources) => ReadingView::Read(Reading::Elf { ident, sources }),
            Err(_) => ReadingView::OutOfMemory,
        },
    }
}

/// Whether the parts of each file that agrees with a picture, whose windows are there, cover more
/// than so many bytes together. A file that has no more bytes isn't looked into.
fn covers_more(picture: &Picture, limit: u64) -> bool
    requires known { KnowsIdentity picture.now }
    requires read { IsReadSoFar limit picture.now }
    ensures { CoversMore limit picture.now result }
{
    let size = picture.size();
    if size <= limit {
        return false;
    }
    known_with_all(picture, &debug_places(picture)) > limit
}
