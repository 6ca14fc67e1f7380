//! Why a reply isn't written whole.

use crate::report::BodyCause;
use http_wire::ReplyFault;

/// Why a reply isn't written whole.
#[derive(Clone, Copy, PartialEq, Eq)]
pub(crate) enum SendFault {
    /// There was no memory for its head, or a write failed.
    Reply(ReplyFault),
    /// The file that is its body couldn't be read as it was checked. What stands in front of that was
    /// written.
    Body(BodyCause),
}
