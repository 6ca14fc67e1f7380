//! The command `sources`.

ghost use Rattle.std.specs.Prelude.{◌≡◌, ◌⊎◌, ◌≤◌, ℕ, List, Result, IfOk, Ok};
ghost use Rattle.file_formats.specs.Identity.{Identity};
ghost use Rattle.file_formats.specs.Parts.{IsSomePart};
ghost use Rattle.file_formats.specs.declared.fault.Why.{Why};
ghost use Rattle.file_picture.specs.Picture.{sum_of};
ghost use Rattle.row_types.specs.declared.limits.TheConstants.{READ_LIMIT};
ghost use Rattle.file_parts.specs.Found.{AreWide, HasIdentity, IsBare, ReadsIdentityOfEach, ReadsSourcesOfEach};
ghost use Rattle.file_parts.specs.Wholes.{IsThereWhole};
ghost use Rattle.dbgd_commands.specs.Endings.{SaysMemory, streams};
ghost use Rattle.dbgd_commands.specs.File.{RunsOn};
ghost use Rattle.dbgd_commands.specs.Sources.{SaysListed, SaysPaths, SaysSources, path_lines};

use crate::speech::{say, say_fault, say_gone, say_no_memory, say_plain};
use crate::status::Status;
use file_parts::{FilePart, FileSeen, find_at_path, identity_found, sources_found};
use file_picture::Picture;
use http_wire::Sink;
use row_types::{CanonPath, Ident, Truth, Why};
use std::alloc::{AllocError, Global};
use tree_trait::Tree;

/// A line for each path, in order.
fn path_lines(alloc: Global, paths: &[CanonPath]) -> Result<Vec<u8>, AllocError>
    ensures { IfOk result (λ text. text.items ≡ path_lines paths.now) }
{
    let mut text = Vec::new(alloc);
    for path in paths {
        text.extend_from_slice(path.text().as_bytes())?;
        text.push(b'\n')?;
    }
    Ok(text)
}

/// A line for each source path of a file with an identity, by what was read of it.
fn source_lines(alloc: Global, picture: &Picture) -> Result<Vec<u8>, AllocError>
    requires decides { IsThereWhole IsSomePart picture.now ⊎ AreWide picture.now ⊎ IsBare picture.now }
    requires small { sum_of picture.now.pieces ≤ READ_LIMIT }
    requires known { HasIdentity picture.now }
    ensures { IfOk result (λ text. (paths : List (List ℕ))
        × ((i : Identity) → ReadsIdentityOfEach picture.now (Ok i) → ReadsSourcesOfEach picture.now i paths)
        × (text.items ≡ path_lines paths)) }
{
    let sources = sources_found(alloc, picture)?;
    path_lines(alloc, sources.paths())
}

/// Says the source paths of a file with an identity, by what was read of it.
fn say_paths<O: Sink>(
    alloc: Global,
    picture: &Picture,
    ident: Ident,
    out: &mut O,
    err: &mut O,
) -> Status
    requires decides { IsThereWhole IsSomePart picture.now ⊎ AreWide picture.now ⊎ IsBare picture.now }
    requires small { sum_of picture.now.pieces ≤ READ_LIMIT }
    requires known { ReadsIdentityOfEach picture.now (Ok ident) }
    ensures { SaysPaths (ReadsSourcesOfEach picture.now ident)
        (streams O.shows out.old err.old) (streams O.shows out.new err.new) result
        ⊎ SaysMemory
        (streams O.shows out.old err.old) (streams O.shows out.new err.new) result }
{
    match source_lines(alloc, picture) {
        Ok(text) => say(text.as_slice(), Status::Done, out, err),
        Err(_) => say_no_memory(out, err),
    }
}

/// Says the source paths of a file, by what was read of it.
fn say_picture<O: Sink>(alloc: Global, picture: &Picture, out: &mut O, err: &mut O) -> Status
    requires decides { IsThereWhole IsSomePart picture.now ⊎ AreWide picture.now ⊎ IsBare picture.now }
    requires small { sum_of picture.now.pieces ≤ READ_LIMIT }
    ensures { (identity : Result Identity Why) × ReadsIdentityOfEach picture.now identity
        × SaysListed (ReadsSourcesOfEach picture.now) identity
        (streams O.shows out.old err.old) (streams O.shows out.new err.new) result }
{
    match identity_found(picture) {
        Ok(ident) => say_paths(alloc, picture, ident, out, err),
        Err(why) => say_plain(why, out, err),
    }
}

/// Opens the file at a path, reads what decides its sources, and says the source paths that its debug
/// information names.
pub fn run_sources<W: Truth, T: Tree<W>, O: Sink>(
    alloc: Global,
    path: &str,
    hand: &mut T,
    out: &mut O,
    err: &mut O,
) -> Status
    ensures { RunsOn (SaysSources path.now) IsSomePart T.told W.version path.now
        (T.shows hand.old) (T.shows hand.new)
        (streams O.shows out.old err.old) (streams O.shows out.new err.new) result }
{
    match find_at_path(alloc, hand, path, FilePart::Debug) {
        FileSeen::Read(opened) => say_picture(alloc, opened.picture(), out, err),
        FileSeen::TooLarge(_) => say_plain(Why::TooLarge, out, err),
        FileSeen::Gone => say_gone(path, out, err),
        FileSeen::Failed => say_fault("file", out, err),
        FileSeen::OutOfMemory => say_no_memory(out, err),
    }
}
