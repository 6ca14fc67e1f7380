//! Reading what isn't known of a range of an open file.

ghost use Rattle.std.specs.Prelude.{◌≡◌, ℕ, ◌+◌, ◌≤◌, ◌<◌, List, true, length, IfErr, IfOk};
ghost use Rattle.file_formats.specs.Numbers.{bytes_at};
ghost use Rattle.file_picture.specs.Counts.{is_known, is_known_or};
ghost use Rattle.file_picture.specs.Picture.{IsCovered, IsRangeFree, PictureFacts, sum_of};
ghost use Rattle.row_types.specs.Faults.{Rose};
ghost use Rattle.tree_trait.specs.Asks.{ReadsOpened};
ghost use Rattle.tree_trait.specs.Fills.{FillsRange, HearsReads, RunEnds};
ghost use Rattle.tree_trait.specs.Heard.{Heard, read_at};
ghost use Rattle.tree_trait.specs.Open.{room_filled};
ghost use Rattle.tree_trait.specs.Opened.{opened_name};

use crate::opened::Opened;
use crate::opening::RoomAnswer;
use crate::tree::Tree;
use row_types::Truth;
use std::alloc::Global;

/// What a filling answers.
#[derive(Clone, Copy, PartialEq, Eq)]
pub enum FillAnswer {
    /// All bytes of the range are known.
    Done,
    /// A read failed, and the tree's count of faults rose.
    Failed,
    /// Memory was refused.
    OutOfMemory,
}

/// Reads bytes of an open file into new memory.
fn read_run<W: Truth, T: Tree<W>>(
    alloc: Global,
    hand: &mut T,
    file: &mut T::File,
    place: u64,
    count: u64,
) -> Result<Vec<u8>, FillAnswer>
    requires some { 0 < count }
    requires inside { place + count ≤ (T.opened file.old).stamp.size }
    ensures name { T.opened file.new ≡ T.opened file.old }
    ensures long { IfOk result (λ bytes. length bytes.items ≡ count) }
    ensures read { IfOk result (λ bytes. ReadsOpened T.told W.version (T.shows hand.old)
        (T.shows hand.new) (read_at (T.opened file.old) place (room_filled bytes.items))) }
    ensures bytes { IfOk result (λ bytes. W.told ≡ true → (b : List ℕ)
        → W.version (T.opened file.old).path (T.opened file.old).stamp b
        → bytes_at b place (length bytes.items) ≡ bytes.items) }
    ensures stop { IfErr result (λ stop. (reads : List Heard)
        × HearsReads T.told W.version (T.shows hand.old) (T.shows hand.new) reads
        × ((p : PictureFacts) → RunEnds (T.opened file.old) place count p p stop reads)) }
    ensures failed { IfErr result (λ stop. stop ≡ FillAnswer.Failed
        → Rose (T.shows hand.old).faults (T.shows hand.new).faults) }
{
    let Ok(mut bytes) = vec![in alloc; 0; count as usize] else {
        return Err(FillAnswer::OutOfMemory);
    };
    match hand.read_at(file, place, bytes.as_mut_slice()) {
        RoomAnswer::Filled => Ok(bytes),
        RoomAnswer::Failed => Err(FillAnswer::Failed),
    }
}

/// Reads one run of bytes that aren't known, and puts them into the picture.
fn fill_run<W: Truth, T: Tree<W>>(
    alloc: Global,
    hand: &mut T,
    opened: &mut Opened<W, T::File>,
    place: u64,
    count: u64,
) -> FillAnswer
    requires some { 0 < count }
    requires inside { place + count ≤ opened.old.stamp.size }
    requires free { IsRangeFree opened.old.picture place count }
    requires name { T.opened opened.old.file ≡ opened_name opened.old }
    ensures name { opened_name opened.new ≡ opened_name opened.old }
    ensures opened { T.opened opened.new.file ≡ opened_name opened.new }
    ensures reads { (reads : List Heard)
        × HearsReads T.told W.version (T.shows hand.old) (T.shows hand.new) reads
        × RunEnds (opened_name opened.old) place count opened.old.picture opened.new.picture
        result reads }
    ensures failed { result ≡ FillAnswer.Failed
        → Rose (T.shows hand.old).faults (T.shows hand.new).faults }
{
    match read_run(alloc, hand, &mut opened.file, place, count) {
        Ok(bytes) => {
            if opened.take(place, bytes) {
                FillAnswer::Done
            } else {
                FillAnswer::OutOfMemory
            }
        }
        Err(stop) => stop,
    }
}

/// Reads each byte of a range that isn't known, once, and nothing else. The file was opened with the
/// path and the stamp of `opened`.
pub fn fill<W: Truth, T: Tree<W>>(
    alloc: Global,
    hand: &mut T,
    opened: &mut Opened<W, T::File>,
    at: u64,
    len: u64,
) -> FillAnswer
    requires inside { at + len ≤ opened.old.stamp.size }
    requires name { T.opened opened.old.file ≡ opened_name opened.old }
    ensures reads { FillsRange T.told W.version (T.shows hand.old) (T.shows hand.new)
        (opened_name opened.old) opened.old.picture opened.new.picture at (at + len) result }
    ensures name { opened_name opened.new ≡ opened_name opened.old }
    ensures opened { T.opened opened.new.file ≡ opened_name opened.new }
    ensures keeps { (from n : ℕ) → IsCovered opened.old.picture from n
        → IsCovered opened.new.picture from n }
    ensures only { (place : ℕ) → is_known opened.new.picture place ≡ true
        → is_known_or opened.old.picture at len place ≡ true }
    ensures sum { sum_of opened.old.picture.pieces ≤ sum_of opened.new.picture.pieces }
    ensures done { result ≡ FillAnswer.Done → IsCovered opened.new.picture at len }
    ensures rises { result ≡ FillAnswer.Done → (IsCovered opened.old.picture at len → ⊥)
        → sum_of opened.old.picture.pieces < sum_of opened.new.picture.pieces }
    ensures failed { result ≡ FillAnswer.Failed
        → Rose (T.shows hand.old).faults (T.shows hand.new).faults }
{
    // For its clauses: the picture has the stamp's size, which is a number of 64 bits.
    opened.knows();
    let mut done = 0;
    while done < len {
        let from = at + done;
        let rest = len - done;
        let Some((place, count)) = opened.picture().missing(from, rest) else {
            return FillAnswer::Done;
        };
        match fill_run(alloc, hand, opened, place, count) {
            FillAnswer::Done => {}
            FillAnswer::Failed => return FillAnswer::Failed,
            FillAnswer::OutOfMemory => return FillAnswer::OutOfMemory,
        }
        done = place + count - at;
    }
    FillAnswer::Done
}
