//! The command `section`.

ghost use Rattle.std.specs.Prelude.{◌⊎◌, ◌≤◌, ℕ, List, Option, Result};
ghost use Rattle.std.specs.Option.{option_copied};
ghost use Rattle.file_formats.specs.Identity.{Identity};
ghost use Rattle.file_formats.specs.Parts.{IsSomeSection};
ghost use Rattle.file_formats.specs.declared.fault.Why.{Why};
ghost use Rattle.file_picture.specs.Picture.{sum_of};
ghost use Rattle.row_types.specs.declared.limits.TheConstants.{READ_LIMIT};
ghost use Rattle.file_parts.specs.Found.{AreWide, ReadsIdentityOfEach};
ghost use Rattle.file_parts.specs.Wholes.{IsSectionOfEach, IsThereWhole};
ghost use Rattle.dbgd_commands.specs.Endings.{streams};
ghost use Rattle.dbgd_commands.specs.File.{RunsOn};
ghost use Rattle.dbgd_commands.specs.Section.{SaysBytes, SaysNamed, SaysSection};

use crate::speech::{say, say_error, say_fault, say_gone, say_no_memory, say_plain};
use crate::status::Status;
use file_parts::{FilePart, FileSeen, find_at_path, identity_found, section_found};
use file_picture::Picture;
use http_wire::Sink;
use row_types::{Truth, Why};
use std::alloc::Global;
use tree_trait::Tree;

/// Says a section's bytes as they stand, or that there is none.
fn say_bytes<O: Sink>(section: Option<&[u8]>, out: &mut O, err: &mut O) -> Status
    ensures { SaysBytes (option_copied section.entry)
        (streams O.shows out.old err.old) (streams O.shows out.new err.new) result }
{
    match section {
        Some(bytes) => say(bytes, Status::Done, out, err),
        None => say_error("dbgd: no section", "", Status::Absent, out, err),
    }
}

/// Says the section of a name of a file with an identity, by what was read of the file.
fn say_picture<O: Sink>(picture: &Picture, name: &[u8], out: &mut O, err: &mut O) -> Status
    requires decides { IsThereWhole (IsSomeSection name.now) picture.now ⊎ AreWide picture.now }
    requires small { sum_of picture.now.pieces ≤ READ_LIMIT }
    ensures { (identity : Result Identity Why) × ReadsIdentityOfEach picture.now identity
        × SaysNamed (IsSectionOfEach name.now picture.now) identity
        (streams O.shows out.old err.old) (streams O.shows out.new err.new) result }
{
    match identity_found(picture) {
        Ok(_) => say_bytes(section_found(picture, name), out, err),
        Err(why) => say_plain(why, out, err),
    }
}

/// Opens the file at a path, reads what decides its section of a name, and says the section's bytes.
pub fn run_section<W: Truth, T: Tree<W>, O: Sink>(
    alloc: Global,
    path: &str,
    name: &str,
    hand: &mut T,
    out: &mut O,
    err: &mut O,
) -> Status
    ensures { RunsOn (SaysSection path.now name.now) (IsSomeSection name.now) T.told W.version
        path.now (T.shows hand.old) (T.shows hand.new)
        (streams O.shows out.old err.old) (streams O.shows out.new err.new) result }
{
    run_named(alloc, path, name.as_bytes(), hand, out, err)
}

/// The same, of a name's bytes.
fn run_named<W: Truth, T: Tree<W>, O: Sink>(
    alloc: Global,
    path: &str,
    name: &[u8],
    hand: &mut T,
    out: &mut O,
    err: &mut O,
) -> Status
    ensures { RunsOn (SaysSection path.now name.now) (IsSomeSection name.now) T.told W.version
        path.now (T.shows hand.old) (T.shows hand.new)
        (streams O.shows out.old err.old) (streams O.shows out.new err.new) result }
{
    match find_at_path(alloc, hand, path, FilePart::Section(name)) {
        FileSeen::Read(opened) => say_picture(opened.picture(), name, out, err),
        FileSeen::TooLarge(_) => say_plain(Why::TooLarge, out, err),
        FileSeen::Gone => say_gone(path, out, err),
        FileSeen::Failed => say_fault("file", out, err),
        FileSeen::OutOfMemory => say_no_memory(out, err),
    }
}
