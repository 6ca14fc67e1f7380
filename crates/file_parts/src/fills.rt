//! Reading all that an answer rests on.

ghost use Rattle.std.specs.Prelude.{◌≡◌};
ghost use Rattle.tree_trait.specs.Opened.{opened_name, unread_picture};
ghost use Rattle.file_parts.specs.Wholes.{FillsWhole, needs_of};

use crate::part::{FilePart, next_need};
use file_picture::known_with;
use row_types::{READ_LIMIT, Truth};
use std::alloc::Global;
use tree_trait::{FillAnswer, Opened, Tree, fill};

/// Reads of an open file, of which nothing was read yet, all that an answer rests on; want of memory
/// where that would be more than [`READ_LIMIT`] bytes.
pub(crate) fn fill_whole<W: Truth, T: Tree<W>>(
    alloc: Global,
    hand: &mut T,
    opened: &mut Opened<W, T::File>,
    part: FilePart<'_>,
) -> FillAnswer
    requires file { T.opened opened.old.file ≡ opened_name opened.old }
    requires unread { opened.old.picture ≡ unread_picture opened.old.stamp.size }
    ensures name { opened_name opened.new ≡ opened_name opened.old }
    ensures file { T.opened opened.new.file ≡ opened_name opened.new }
    ensures fills { FillsWhole (needs_of part.entry) T.told W.version (opened_name opened.old)
        (T.shows hand.old) (T.shows hand.new) opened.new.picture result }
{
    let mut from = 1;
    'needs: loop {
        let Some(need) = next_need(opened.picture(), part, from) else {
            return FillAnswer::Done;
        };
        from = need.next;
        if known_with(opened.picture(), need.at, need.len) > READ_LIMIT {
            return FillAnswer::OutOfMemory;
        }
        match fill(alloc, hand, opened, need.at, need.len) {
            FillAnswer::Done => {
                // For its clause: no more bytes are known than the file has.
                let _known = opened.picture().bytes();
            }
            FillAnswer::Failed => return FillAnswer::Failed,
            FillAnswer::OutOfMemory => return FillAnswer::OutOfMemory,
        }
    }
}
