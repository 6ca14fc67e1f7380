//! A look for the file of a row.

ghost use Rattle.std.specs.Prelude.{◌≡◌};
ghost use Rattle.std.specs.Bool.{OnTrue, OnFalse};
ghost use Rattle.groomer.specs.Looks.{LooksAtName, looked_of};
ghost use Rattle.scan_queue.specs.declared.miss.Seen.{Seen};

use index_state::GroomTask;
use row_types::Truth;
use scan_queue::Seen;
use std::alloc::Global;
use tree_trait::{StatAnswer, Tree};

/// What a look for the file of a row gives.
#[derive(Clone, Copy, PartialEq, Eq)]
pub enum Looked {
    /// What stands at its path.
    Saw(Seen),
    /// The look failed, and the hand's count of faults rose.
    Failed,
    /// Memory was refused.
    OutOfMemory,
}

/// Looks for the file of a row, if its path is under a root. Elsewhere no look is made, and nothing
/// is said to stand there.
pub fn look<W: Truth, T: Tree<W>>(alloc: Global, hand: &mut T, task: &GroomTask) -> Looked
    ensures under { OnTrue task.now.under (LooksAtName T.told W.version task.now.name
        (T.shows hand.old) (T.shows hand.new) result) }
    ensures apart { OnFalse task.now.under (result ≡ Looked.Saw Seen.Gone) }
    ensures unasked { OnFalse task.now.under (hand.new ≡ hand.old) }
{
    if !task.under {
        return Looked::Saw(Seen::Gone);
    }
    looked_of(hand.stat(alloc, task.name.path.text()))
}

/// What a look saw.
fn looked_of(answer: StatAnswer) -> Looked
    ensures { result ≡ looked_of answer }
{
    match answer {
        StatAnswer::File(stamp) => Looked::Saw(Seen::File(stamp)),
        StatAnswer::Folder | StatAnswer::Other => Looked::Saw(Seen::Other),
        StatAnswer::Gone => Looked::Saw(Seen::Gone),
        StatAnswer::Failed => Looked::Failed,
        StatAnswer::OutOfMemory => Looked::OutOfMemory,
    }
}
