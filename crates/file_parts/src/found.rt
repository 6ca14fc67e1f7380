//! The file at a path, read as the reading of files has it: windows first, and no more than may be.

ghost use Rattle.std.specs.Prelude.{◌≡◌, ℕ, ◌+◌, ◌≤◌, IfOk, List, nat_lt};
ghost use Rattle.file_picture.specs.Agrees.{AsksOf};
ghost use Rattle.file_picture.specs.Counts.{count_in, is_known_or};
ghost use Rattle.file_picture.specs.Passed.{HasPassed};
ghost use Rattle.file_picture.specs.ReadSoFar.{IsReadSoFar};
ghost use Rattle.tree_trait.specs.Opened.{opened_name, unread_picture};
ghost use Rattle.elf_classify.specs.DebugViews.{KnowsIdentity};
ghost use Rattle.elf_reading.specs.RowViews.{CoversMore};
ghost use Rattle.file_parts.specs.AtPath.{stamped_name};
ghost use Rattle.file_parts.specs.Found.{FillsFound, FindsAtPath, FindsOpened, IsFoundNext, IsFoundSoFar, SaysBare, SaysDecision, StepsFound};
ghost use Rattle.file_formats.specs.Windows.{IsSomeWindow};
ghost use Rattle.file_parts.specs.Wholes.{IsThereWhole, needs_of};
ghost use Rattle.file_parts.specs.declared.part.FilePart.TheVariants as FilePart;
ghost use Rattle.row_types.specs.declared.limits.TheConstants.{READ_LIMIT};

use crate::part::{FilePart, PartNeed, PartStep, next_step};
use crate::seen::FileSeen;
use elf_classify::debug_places;
use file_picture::{Picture, known_with, known_with_all};
use row_types::{FILE_LIMIT, READ_LIMIT, Stamp, Truth};
use std::alloc::Global;
use tree_trait::{FillAnswer, OpenAnswer, Opened, Tree, fill};

/// Opens the file at a path, up to [`FILE_LIMIT`], and reads of it what decides the answer, windows
/// first, and no more: where they cover more than [`READ_LIMIT`] bytes, not the one that does; and no
/// debug section where all parts do. Want of memory where a section would make it more.
pub fn find_at_path<W: Truth, T: Tree<W>>(
    alloc: Global,
    hand: &mut T,
    path: &str,
    part: FilePart<'_>,
) -> FileSeen<W, T::File>
    ensures { FindsAtPath T.opened part.entry T.told W.version path.now
        (T.shows hand.old) (T.shows hand.new) result }
{
    match hand.open_file(alloc, path, FILE_LIMIT) {
        OpenAnswer::Opened { file, stamp } => find_opened(alloc, hand, path, part, file, stamp),
        OpenAnswer::TooLarge { stamp } => FileSeen::TooLarge(stamp),
        OpenAnswer::Gone => FileSeen::Gone,
        OpenAnswer::Failed => FileSeen::Failed,
        OpenAnswer::OutOfMemory => FileSeen::OutOfMemory,
    }
}

/// Reads of a file that was opened what decides the answer.
fn find_opened<W: Truth, T: Tree<W>>(
    alloc: Global,
    hand: &mut T,
    path: &str,
    part: FilePart<'_>,
    file: T::File,
    stamp: Stamp,
) -> FileSeen<W, T::File>
    requires known { (b : List ℕ) × W.version path.now stamp b }
    requires opened { T.opened file ≡ stamped_name path.now stamp }
    ensures { FindsOpened T.opened part.entry T.told W.version path.now stamp
        (T.shows hand.old) (T.shows hand.new) result }
{
    let Ok(own) = String::from_str(alloc, path) else {
        return FileSeen::OutOfMemory;
    };
    let mut opened = Opened::new(alloc, own, stamp, file);
    let end = fill_found(alloc, hand, &mut opened, part);
    // For its clause: a version of the name agrees with the picture.
    opened.knows();
    match end {
        FillAnswer::Done => FileSeen::Read(opened),
        FillAnswer::Failed => FileSeen::Failed,
        FillAnswer::OutOfMemory => FileSeen::OutOfMemory,
    }
}

/// Reads of an open file, of which nothing was read yet, what decides the answer.
fn fill_found<W: Truth, T: Tree<W>>(
    alloc: Global,
    hand: &mut T,
    opened: &mut Opened<W, T::File>,
    part: FilePart<'_>,
) -> FillAnswer
    requires file { T.opened opened.old.file ≡ opened_name opened.old }
    requires unread { opened.old.picture ≡ unread_picture opened.old.stamp.size }
    ensures name { opened_name opened.new ≡ opened_name opened.old }
    ensures file { T.opened opened.new.file ≡ opened_name opened.new }
    ensures fills { FillsFound part.entry T.told W.version (opened_name opened.old)
        (T.shows hand.old) (T.shows hand.new) opened.new.picture result }
{
    let mut from = 1;
    'steps: loop {
        match step(alloc, hand, opened, part, &mut from) {
            Ok(()) => {}
            Err(end) => return end,
        }
    }
}

/// Reads the next range, or says that the answer is decided.
fn step<W: Truth, T: Tree<W>>(
    alloc: Global,
    hand: &mut T,
    opened: &mut Opened<W, T::File>,
    part: FilePart<'_>,
    from: &mut u64,
) -> Result<(), FillAnswer>
    requires file { T.opened opened.old.file ≡ opened_name opened.old }
    requires passed { HasPassed opened.old.picture from.old }
    requires read { IsFoundSoFar (needs_of part) opened.old.picture }
    ensures name { opened_name opened.new ≡ opened_name opened.old }
    ensures file { T.opened opened.new.file ≡ opened_name opened.new }
    ensures step { StepsFound part.entry T.told W.version (opened_name opened.old)
        (T.shows hand.old) (T.shows hand.new) opened.old.picture opened.new.picture result }
    ensures passed { IfOk result (λ _. HasPassed opened.new.picture from.new) }
    ensures read { IfOk result (λ _. IsFoundSoFar (needs_of part.entry) opened.new.picture) }
{
    match decide(opened.picture(), part, *from) {
        Decision::Decided => Err(FillAnswer::Done),
        Decision::TooMuch => Err(FillAnswer::OutOfMemory),
        Decision::Read(need) => {
            *from = need.next;
            read_need(alloc, hand, opened, part, need)
        }
    }
}

/// What is done next.
#[derive(Clone, Copy)]
enum Decision {
    /// Nothing: the answer is decided.
    Decided,
    /// Nothing: a range that is needed is too much to be read.
    TooMuch,
    /// This range is read.
    Read(PartNeed),
}

/// What is done next with a picture.
fn decide(picture: &Picture, part: FilePart<'_>, from: u64) -> Decision
    requires passed { HasPassed picture.now from }
    requires read { IsFoundSoFar (needs_of part) picture.now }
    ensures { SaysDecision part.entry picture.now result }
{
    // For its clause: the pieces of a picture neither overlap nor touch.
    let _size = picture.size();
    match next_step(picture, part, from) {
        PartStep::Whole => Decision::Decided,
        PartStep::Window(need) => {
            if is_too_much(picture, need) {
                Decision::Decided
            } else {
                Decision::Read(need)
            }
        }
        PartStep::Rest(need) => decide_rest(picture, part, need),
    }
}

/// What is done next where all windows are there, and a range is needed.
fn decide_rest(picture: &Picture, part: FilePart<'_>, need: PartNeed) -> Decision
    requires asks { AsksOf (needs_of part) picture.now need.at need.len }
    requires windows { IsThereWhole IsSomeWindow picture.now }
    requires passed { HasPassed picture.now need.next }
    requires read { IsFoundSoFar (needs_of part) picture.now }
    ensures { SaysDecision part.entry picture.now result }
{
    // For its clause: the pieces of a picture neither overlap nor touch.
    let _size = picture.size();
    if is_bare(picture, part) {
        return Decision::Decided;
    }
    if is_too_much(picture, need) {
        return Decision::TooMuch;
    }
    Decision::Read(need)
}

/// Reads a range of an open file that may be read.
fn read_need<W: Truth, T: Tree<W>>(
    alloc: Global,
    hand: &mut T,
    opened: &mut Opened<W, T::File>,
    part: FilePart<'_>,
    need: PartNeed,
) -> Result<(), FillAnswer>
    requires file { T.opened opened.old.file ≡ opened_name opened.old }
    requires asks { AsksOf (needs_of part) opened.old.picture need.at need.len }
    requires may { IsFoundNext opened.old.picture need.at need.len }
    requires read { IsFoundSoFar (needs_of part) opened.old.picture }
    ensures name { opened_name opened.new ≡ opened_name opened.old }
    ensures file { T.opened opened.new.file ≡ opened_name opened.new }
    ensures step { StepsFound part.entry T.told W.version (opened_name opened.old)
        (T.shows hand.old) (T.shows hand.new) opened.old.picture opened.new.picture result }
    ensures passed { IfOk result (λ _.
        (i : ℕ) → HasPassed opened.old.picture i → HasPassed opened.new.picture i) }
    ensures read { IfOk result (λ _. IsFoundSoFar (needs_of part.entry) opened.new.picture) }
{
    // For its clauses: the picture has the stamp's size.
    opened.knows();
    match fill(alloc, hand, opened, need.at, need.len) {
        FillAnswer::Done => {
            // For its clause: it is a picture still.
            let _size = opened.picture().size();
            Ok(())
        }
        FillAnswer::Failed => Err(FillAnswer::Failed),
        FillAnswer::OutOfMemory => Err(FillAnswer::OutOfMemory),
    }
}

/// Whether more than may be is known with a range.
fn is_too_much(picture: &Picture, need: PartNeed) -> bool
    requires { need.at + need.len ≤ picture.now.size }
    ensures { result
        ≡ nat_lt READ_LIMIT (count_in (is_known_or picture.now need.at need.len) 0 picture.now.size) }
{
    known_with(picture, need.at, need.len) > READ_LIMIT
}

/// Whether the sources are asked for, and the parts of each file that agrees with a picture, whose
/// windows are there, cover more than may be read.
fn is_bare(picture: &Picture, part: FilePart<'_>) -> bool
    requires { part ≡ FilePart.Debug → KnowsIdentity picture.now × IsReadSoFar READ_LIMIT picture.now }
    ensures { SaysBare part.entry picture.now result }
{
    match part {
        FilePart::Debug => parts_cover_more(picture),
        FilePart::Identity => false,
        FilePart::Section(_) => false,
    }
}

/// Whether the parts of each file that agrees with a picture, whose windows are there, cover more than
/// may be read.
fn parts_cover_more(picture: &Picture) -> bool
    requires known { KnowsIdentity picture.now }
    requires read { IsReadSoFar READ_LIMIT picture.now }
    ensures { CoversMore READ_LIMIT picture.now result }
{
    // For its clause: the pieces of a picture neither overlap nor touch.
    let _size = picture.size();
    known_with_all(picture, &debug_places(picture)) > READ_LIMIT
}
