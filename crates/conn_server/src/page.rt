//! The pages: a target is looked up among them as it stands, in front of the routes.

ghost use Rattle.std.specs.Prelude.{◌≡◌, MatchOption};
ghost use Rattle.index_lock.specs.Tokens.{IsLater};
ghost use Rattle.row_types.specs.Name.{NameFacts};
ghost use Rattle.conn_server.specs.Bodies.{decided_facts};
ghost use Rattle.conn_server.specs.Pages.{IsNoPage, IsPageReply, page_sight};

use crate::decide::Decided;
use crate::service::Service;
use index_desk::Desk;
use index_keeper::Keeper;
use row_types::Truth;
use std::sync::Wait;
use tree_trait::Gate;

/// Decides by the page that a target asks for, where it asks for one. The index is held once at most.
/// No page stands here yet: the counters are a route.
pub(crate) fn decide_page<'d, W: Truth, K: Keeper<W>, F: Drop, G: Gate, R: Wait + Sync>(
    service: &Service<'_, G, R>,
    desk: Desk<'d, W, K>,
    target: &[u8],
) -> (Desk<'d, W, K>, Option<Decided<F>>)
    ensures later { IsLater desk.entry.seat result.0.seat }
    ensures page { MatchOption result.1
        (IsNoPage target.now × (result.0.seat ≡ desk.entry.seat))
        (λ decided. (opened : F → NameFacts) → IsPageReply (page_sight W.true_row
        desk.entry.seat.origin.epoch result.0.seat.seen) target.now (decided_facts opened decided)) }
{
    (desk, None)
}
