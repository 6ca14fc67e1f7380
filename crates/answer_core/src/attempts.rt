//! The candidates, one after the other.

ghost use Rattle.answer_core.specs.Loads.{TriesAllCandidates};

use crate::attempt::try_one;
use crate::candidate::Candidate;
use crate::given::{Given, Tried};
use row_types::Truth;
use std::alloc::Global;
use std::sync::Wait;
use tree_trait::{Gate, Tree};
use webapi_routes::Route;

/// What came of the candidates.
#[derive(Drop)]
pub(crate) enum Outcome<F: Drop> {
    /// The candidate at this place is the first that passed.
    Passed { given: Given<F>, place: usize },
    /// None passed, and a call failed or none did.
    Nothing { fails: bool },
    /// There was not enough memory.
    OutOfMemory,
}

/// Tries the candidates in order, until one passes.
pub(crate) fn try_all<W: Truth, T: Tree<W>, G: Gate, R: Wait + Sync>(
    rt: &R,
    alloc: Global,
    hand: &mut T,
    route: &Route,
    all: &[Candidate],
    gate: &G,
) -> Outcome<T::File>
    ensures { TriesAllCandidates T.opened
        (record { told = T.told; version = W.version; start = T.shows hand.old })
        route.now all.now result (T.shows hand.new) }
{
    let mut fails = false;
    for (place, candidate) in all.iter().enumerate() {
        match try_one(rt, alloc, hand, route, candidate, gate) {
            Tried::Passed(given) => return Outcome::Passed { given, place },
            Tried::Refused => {}
            Tried::Failed => fails = true,
            Tried::OutOfMemory => return Outcome::OutOfMemory,
        }
    }
    Outcome::Nothing { fails }
}
