//! What a picture says of a build-id and a class.

ghost use Rattle.std.specs.Prelude.{IfNone, IfSome};
ghost use Rattle.file_formats.specs.Windows.{IsSomeWindow};
ghost use Rattle.file_picture.specs.Agrees.{IsOfEach};
ghost use Rattle.answer_check.specs.Certified.{IsCertified};
ghost use Rattle.answer_check.specs.Checked.{FaultsView};

use crate::certified::{CheckFault, other_than};
use elf_classify::{IdentView, ident_view};
use file_picture::Picture;
use row_types::{BuildId, Kind};

/// Why a picture is not certified. The variants stand in the order of the tests.
#[derive(Clone, Copy, PartialEq, Eq)]
pub enum ViewFault {
    /// This range of the file isn't known, on which the answer rests.
    Need {
        /// Bytes from the file's start.
        at: u64,
        /// How many bytes it has.
        len: u64,
    },
    /// No file of this picture is of the build-id and the class, for this reason.
    Check(CheckFault),
}

/// Why not each file that agrees with a picture is of this id and class.
pub(crate) fn view_fault(kind: Kind, id: &BuildId, picture: &Picture) -> Option<ViewFault>
    ensures fault { IfSome result (FaultsView kind id.now picture.now) }
    ensures none { IfNone result (IsOfEach IsSomeWindow (IsCertified kind id.now) picture.now) }
{
    match ident_view(picture) {
        IdentView::Need { at, len } => Some(ViewFault::Need { at, len }),
        IdentView::Plain(why) => Some(ViewFault::Check(CheckFault::Plain(why))),
        IdentView::Ident(ident) => match other_than(kind, id, ident) {
            Some(fault) => Some(ViewFault::Check(fault)),
            None => None,
        },
    }
}
