//! What is answered of the files of a stage.

ghost use Rattle.std.specs.Prelude.{◌≡◌, ◌<◌, [], map, length, slice_index_or};
ghost use Rattle.std.specs.List.{find};
ghost use Rattle.std.specs.Option.{option_copied};
ghost use Rattle.std.specs.Str.{bytes_eq};
ghost use Rattle.tree_trait.specs.Dir.{dir_facts};
ghost use Rattle.tree_trait.specs.Found.{found_name};
ghost use Rattle.tree_trait.specs.Heard.{load, stat, read_dir, open_file};
ghost use Rattle.tree_trait.specs.Load.{load_facts};
ghost use Rattle.tree_trait.specs.MemTree.{IsStageAnswer};
ghost use Rattle.tree_trait.specs.Open.{IsOpenedAs, open_facts};
ghost use Rattle.tree_trait.specs.Present.{IsFileAt};
ghost use Rattle.tree_trait.specs.Script.{is_call_listed, stage_for};

use crate::answer::LoadAnswer;
use crate::dir::DirAnswer;
use crate::folder::{entries_of, is_folder};
use crate::found::Found;
use crate::opening::OpenAnswer;
use crate::stat::StatAnswer;
use row_types::Truth;
use std::alloc::Global;

/// Whether the call of this number is among the numbers.
pub fn is_listed(numbers: &[u64], call: u64) -> bool
    ensures { result ≡ is_call_listed numbers.now call }
{
    numbers.contains(&call)
}

/// The stage, of so many, in which the call of this number is answered.
pub fn stage_for(moves: &[u64], call: u64, stage: usize, count: usize) -> usize
    requires { stage < count }
    ensures value { result ≡ stage_for moves.now call stage count }
    ensures placed { result < count }
{
    if is_listed(moves, call) && stage + 1 < count {
        stage + 1
    } else {
        stage
    }
}

/// The files of a stage.
pub fn files_at<W: Truth>(stages: &[Vec<Found<W>>], stage: usize) -> &[Found<W>]
    requires { stage < length stages.now }
    ensures { result.now ≡ slice_index_or (map (λ files. files.items) stages.now) stage [] }
{
    stages[stage].as_slice()
}

/// What a load answers of the file at a path, among the files of a stage.
pub fn load_in<W: Truth>(
    alloc: Global,
    bad: bool,
    files: &[Found<W>],
    path: &str,
    limit: u64,
) -> LoadAnswer<W>
    ensures { IsStageAnswer W.version bad (map found_name files.now)
        (load path.now limit (load_facts result)) }
{
    if bad {
        return LoadAnswer::Failed;
    }
    match file_at(files, path) {
        None => LoadAnswer::Gone,
        Some(found) if limit < found.stamp.size => LoadAnswer::TooLarge { stamp: found.stamp },
        Some(found) => match found.copy(alloc) {
            Ok(copy) => LoadAnswer::Found(copy),
            Err(_) => LoadAnswer::OutOfMemory,
        },
    }
}

/// What an opening answers of the file at a path, among the files of a stage: as its load does.
pub fn open_in<W: Truth>(
    alloc: Global,
    bad: bool,
    files: &[Found<W>],
    path: &str,
    limit: u64,
) -> OpenAnswer<Found<W>>
    ensures answer { IsStageAnswer W.version bad (map found_name files.now)
        (open_file path.now limit (open_facts result)) }
    ensures name { IsOpenedAs found_name path.now result }
{
    match load_in(alloc, bad, files, path, limit) {
        LoadAnswer::Found(found) => OpenAnswer::Opened {
            stamp: found.stamp,
            file: found,
        },
        LoadAnswer::TooLarge { stamp } => OpenAnswer::TooLarge { stamp },
        LoadAnswer::Gone => OpenAnswer::Gone,
        LoadAnswer::Failed => OpenAnswer::Failed,
        LoadAnswer::OutOfMemory => OpenAnswer::OutOfMemory,
    }
}

/// What a look at a path answers, among the files of a stage.
pub fn stat_in<W: Truth>(bad: bool, files: &[Found<W>], path: &str) -> StatAnswer
    ensures { IsStageAnswer W.version bad (map found_name files.now) (stat path.now result) }
{
    if bad {
        return StatAnswer::Failed;
    }
    match file_at(files, path) {
        Some(found) => StatAnswer::File(found.stamp),
        None if is_folder(files, path) => StatAnswer::Folder,
        None => StatAnswer::Gone,
    }
}

/// What the reading of a folder answers, among the files of a stage.
pub fn dir_in<W: Truth>(alloc: Global, bad: bool, files: &[Found<W>], path: &str) -> DirAnswer
    ensures { IsStageAnswer W.version bad (map found_name files.now)
        (read_dir path.now (dir_facts result)) }
{
    if bad {
        return DirAnswer::Failed;
    }
    if !is_folder(files, path) {
        return DirAnswer::Gone;
    }
    match entries_of(alloc, files, path) {
        Ok(entries) => DirAnswer::Listed {
            entries,
            skipped: 0,
        },
        Err(_) => DirAnswer::OutOfMemory,
    }
}

/// The file at a path.
fn file_at<'a, W: Truth>(files: &'a [Found<W>], path: &str) -> Option<&'a Found<W>>
    ensures { IsFileAt files.now path.now result }
{
    first_at(files, path)
}

/// The first file of a path.
fn first_at<'a, W: Truth>(files: &'a [Found<W>], path: &str) -> Option<&'a Found<W>>
    ensures { option_copied result ≡ find (λ file. bytes_eq file.path path.now) files.now }
{
    files.iter().find(|file| file.path.as_str() == path)
}
