//! What single holds of a shared index show the hand that leads a pass.

ghost use Rattle.std.specs.Prelude.{◌≡◌, [], None};
ghost use Rattle.index_lock.specs.Tokens.{IsLater};
ghost use Rattle.index_state.specs.declared.answer.Judged.{Judged};
ghost use Rattle.pass_runner.specs.Leading.{BeginShows, IsStanding};

use index_desk::Desk;
use index_keeper::Keeper;
use index_state::{Begun, Judged, Published};
use path_scope::Selection;
use row_types::{CanonPath, Name, Truth};
use scan_queue::{Listing, Seen};
use std::alloc::Global;
use std::sync::Wait;

/// Begins a pass in an index of which no name was spared, so that none is skipped.
pub(crate) fn begin_one<'a, W: Truth, K: Keeper<W>, P: Selection, Rt: Wait>(
    rt: &Rt,
    alloc: Global,
    desk: Desk<'a, W, K>,
    listing: Listing,
    roots: Vec<CanonPath>,
    select: &mut P,
) -> (Desk<'a, W, K>, Begun)
    requires { desk.seat.origin.sparing ≡ None }
    ensures later { IsLater desk.entry.seat result.0.seat }
    ensures none { desk.entry.seat.origin.spared ≡ [] }
    ensures shows { BeginShows listing result.1 result.0.seat.seen }
    ensures same { P.takes select.new ≡ P.takes select.old }
{
    let (desk, begun) = desk.begin(rt, alloc, listing, roots, select);
    (desk, begun)
}

/// Judges a name by what was seen at its path.
pub(crate) fn judge_one<'a, W: Truth, K: Keeper<W>, Rt: Wait>(
    rt: &Rt,
    alloc: Global,
    desk: Desk<'a, W, K>,
    name: &Name,
    seen: Seen,
) -> (Desk<'a, W, K>, Judged)
    ensures later { IsLater desk.entry.seat result.0.seat }
    ensures stands { result.1 ≡ Judged.Strange → IsStanding name.now seen result.0.seat.seen }
{
    let (desk, answer) = desk.judge(rt, alloc, name, seen);
    (desk, answer)
}

/// Whether more may be published after this answer.
pub(crate) fn is_open(answer: Published) -> bool {
    match answer {
        Published::Added | Published::Replaced | Published::Already | Published::NotListed { .. } =>
            true,
        Published::Broken | Published::LogFull | Published::KeeperFault | Published::OutOfMemory =>
            false,
    }
}
