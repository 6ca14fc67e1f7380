//! What bytes are of a head.

ghost use Rattle.std.specs.Prelude.{◌≤◌, length};
ghost use Rattle.http_wire.specs.declared.limits.TheConstants.{HEAD_LIMIT};
ghost use Rattle.dbgd_edges.specs.Fronts.{IsFront};

use http_wire::{HEAD_LIMIT, Look, look_at};

/// What bytes are of a head, to the reader of heads.
#[derive(Clone, Copy, PartialEq, Eq)]
pub enum Front {
    /// A head of so many bytes is in front.
    Whole(usize),
    /// No head is in front, and one may become.
    Begun,
    /// No head that is served can be in front, whatever follows.
    Bad,
}

/// What bytes are of a head.
#[tactic(auto, using(crate::proofs::FrontLemmas::whole_of))]
pub fn front_of(bytes: &[u8]) -> Front
    requires { length bytes.now ≤ HEAD_LIMIT }
    ensures { IsFront bytes.now result }
{
    match look_at(bytes) {
        Look::Whole(found) => Front::Whole(found.len),
        Look::Partial => Front::Begun,
        Look::Bad | Look::TooMany => Front::Bad,
    }
}
