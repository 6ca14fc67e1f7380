//! The command `ident`.

ghost use Rattle.std.specs.Prelude.{◌⊎◌, ◌≤◌, Result};
ghost use Rattle.file_formats.specs.Identity.{Identity};
ghost use Rattle.file_formats.specs.Windows.{IsSomeWindow};
ghost use Rattle.file_formats.specs.declared.fault.Why.{Why};
ghost use Rattle.file_picture.specs.Picture.{sum_of};
ghost use Rattle.row_types.specs.declared.limits.TheConstants.{READ_LIMIT};
ghost use Rattle.file_parts.specs.Found.{AreWide, ReadsIdentityOfEach};
ghost use Rattle.file_parts.specs.Wholes.{IsThereWhole};
ghost use Rattle.dbgd_commands.specs.Endings.{EndsSaying, SaysMemory, streams};
ghost use Rattle.dbgd_commands.specs.File.{RunsOn};
ghost use Rattle.dbgd_commands.specs.Ident.{SaysFile, SaysIdent, identity_saying, plain_saying};

use crate::speech::{say, say_fault, say_gone, say_no_memory};
use crate::status::Status;
use crate::texts::{identity_line, plain_line};
use file_parts::{FilePart, FileSeen, find_at_path, identity_found};
use file_picture::Picture;
use http_wire::Sink;
use row_types::{Ident, Truth, Why};
use std::alloc::Global;
use tree_trait::Tree;

/// Says why a file has no identity.
fn say_plain<O: Sink>(why: Why, out: &mut O, err: &mut O) -> Status
    ensures { EndsSaying (plain_saying why)
        (streams O.shows out.old err.old) (streams O.shows out.new err.new) result }
{
    say(plain_line(why).as_bytes(), Status::Absent, out, err)
}

/// Says what the identity of a file is.
fn say_identity<O: Sink>(alloc: Global, ident: &Ident, out: &mut O, err: &mut O) -> Status
    ensures { EndsSaying (identity_saying ident.now)
        (streams O.shows out.old err.old) (streams O.shows out.new err.new) result
        ⊎ SaysMemory
        (streams O.shows out.old err.old) (streams O.shows out.new err.new) result }
{
    match identity_line(alloc, ident) {
        Ok(line) => say(line.as_bytes(), Status::Done, out, err),
        Err(_) => say_no_memory(out, err),
    }
}

/// Says what a file is, by what was read of it.
fn say_picture<O: Sink>(alloc: Global, picture: &Picture, out: &mut O, err: &mut O) -> Status
    requires decides { IsThereWhole IsSomeWindow picture.now ⊎ AreWide picture.now }
    requires small { sum_of picture.now.pieces ≤ READ_LIMIT }
    ensures { (identity : Result Identity Why) × ReadsIdentityOfEach picture.now identity
        × SaysFile identity
        (streams O.shows out.old err.old) (streams O.shows out.new err.new) result }
{
    match identity_found(picture) {
        Ok(ident) => say_identity(alloc, &ident, out, err),
        Err(why) => say_plain(why, out, err),
    }
}

/// Opens the file at a path, reads what decides its identity, and says what it is.
pub fn run_ident<W: Truth, T: Tree<W>, O: Sink>(
    alloc: Global,
    path: &str,
    hand: &mut T,
    out: &mut O,
    err: &mut O,
) -> Status
    ensures { RunsOn (SaysIdent path.now) IsSomeWindow T.told W.version path.now
        (T.shows hand.old) (T.shows hand.new)
        (streams O.shows out.old err.old) (streams O.shows out.new err.new) result }
{
    match find_at_path(alloc, hand, path, FilePart::Identity) {
        FileSeen::Read(opened) => say_picture(alloc, opened.picture(), out, err),
        FileSeen::TooLarge(_) => say_plain(Why::TooLarge, out, err),
        FileSeen::Gone => say_gone(path, out, err),
        FileSeen::Failed => say_fault("file", out, err),
        FileSeen::OutOfMemory => say_no_memory(out, err),
    }
}
