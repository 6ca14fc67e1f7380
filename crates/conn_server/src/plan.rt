//! What is to be done about what was read of a connection.

ghost use Rattle.std.specs.Prelude.{◌≡◌};
ghost use Rattle.index_lock.specs.Tokens.{IsLater};
ghost use Rattle.row_types.specs.Name.{NameFacts};
ghost use Rattle.conn_server.specs.Asked.{closes_after, readable, sends_body, told_facts};
ghost use Rattle.conn_server.specs.Objects.{StayLent, setting_by, stage_by};
ghost use Rattle.conn_server.specs.Plans.{CanPlan, Plans, PlansHead, PlansRefusal, turn_plan};
ghost use Rattle.conn_server.specs.Turns.{end_of_head};

use crate::decide::{Decided, decide, plain};
use crate::method::is_head;
use crate::objects::Objects;
use crate::reason::reason_of_head;
use crate::report::{Asked, ConnEnd};
use crate::send::ReplyForm;
use crate::service::Service;
use federation::Link;
use http_wire::{Head, HeadAnswer, HeadFault};
use index_desk::Desk;
use index_keeper::Keeper;
use row_types::Truth;
use std::sync::Wait;
use tree_trait::{Gate, Tree};

/// What is to be done about what was read. `F` is the hand's open file.
#[derive(Drop)]
pub(crate) enum ReplyPlan<F: Drop> {
    /// Nothing is answered, and the connection ends.
    End(ConnEnd),
    /// A reply is written.
    Reply {
        /// To what it is one.
        decided: Decided<F>,
        /// How it is written.
        form: ReplyForm,
        /// How the connection ends behind it, if it closes.
        end: ConnEnd,
    },
}

/// Says what is to be done about what was read. A head is decided.
pub(crate) fn plan_for<'d, W: Truth, K: Keeper<W>, T: Tree<W>, L: Link, G: Gate, R: Wait + Sync>(
    service: &Service<'_, G, R>,
    desk: Desk<'d, W, K>,
    objects: &mut Objects<'_, T, L>,
    last: bool,
    answer: &HeadAnswer<'_>,
) -> (Desk<'d, W, K>, ReplyPlan<T::File>)
    ensures later { IsLater desk.entry.seat result.0.seat }
    ensures same { StayLent objects.old objects.new }
    ensures plans { Plans (setting_by W.true_row T.told W.version T.shows service.now.folders.now objects.old)
        (stage_by L.shows desk.entry.seat objects.old) answer.now last
        (turn_plan T.opened result.1)
        (stage_by L.shows result.0.seat objects.new) }
    ensures can { CanPlan W.version (turn_plan T.opened result.1) }
{
    match answer {
        HeadAnswer::Head(head) => plan_head(service, desk, objects, last, head),
        HeadAnswer::Closed => (desk, ReplyPlan::End(ConnEnd::Closed)),
        HeadAnswer::Refused(fault) => (desk, plan_refusal(*fault)),
        HeadAnswer::ReadFault => (desk, ReplyPlan::End(ConnEnd::ReadFault)),
    }
}

/// Decides a head. The last one that a connection has gets a reply that closes.
fn plan_head<'d, W: Truth, K: Keeper<W>, T: Tree<W>, L: Link, G: Gate, R: Wait + Sync>(
    service: &Service<'_, G, R>,
    desk: Desk<'d, W, K>,
    objects: &mut Objects<'_, T, L>,
    last: bool,
    head: &Head<'_>,
) -> (Desk<'d, W, K>, ReplyPlan<T::File>)
    ensures later { IsLater desk.entry.seat result.0.seat }
    ensures same { StayLent objects.old objects.new }
    ensures plans { PlansHead (setting_by W.true_row T.told W.version T.shows service.now.folders.now objects.old)
        (stage_by L.shows desk.entry.seat objects.old) head.now last
        (turn_plan T.opened result.1)
        (stage_by L.shows result.0.seat objects.new) }
    ensures can { CanPlan W.version (turn_plan T.opened result.1) }
{
    let form = form_of(head, last);
    let end = end_behind(last);
    let (desk, decided) = decide(service, desk, objects, head);
    (desk, ReplyPlan::Reply { decided, form, end })
}

/// How a reply to a head is written, which may be the last that a connection has.
fn form_of(head: &Head<'_>, last: bool) -> ReplyForm
    ensures close { result.close ≡ closes_after (readable (told_facts head.now)) last }
    ensures with_body { result.with_body ≡ sends_body (readable (told_facts head.now)) }
{
    ReplyForm {
        close: head.close || head.has_body || last,
        with_body: !is_head(head.method),
    }
}

/// How a connection ends behind a reply to a head that closes.
fn end_behind(last: bool) -> ConnEnd
    ensures { result ≡ end_of_head last }
{
    if last {
        ConnEnd::Limit
    } else {
        ConnEnd::Closed
    }
}

/// Bytes that are no head get a reply that closes. Those that were cut off get none.
fn plan_refusal<F: Drop>(fault: HeadFault) -> ReplyPlan<F>
    ensures { (opened : F → NameFacts) → PlansRefusal fault (turn_plan opened result) }
{
    match reason_of_head(fault) {
        Some(reason) => ReplyPlan::Reply {
            decided: plain(Asked::Head(fault), reason),
            form: ReplyForm {
                close: true,
                with_body: true,
            },
            end: ConnEnd::Refused,
        },
        None => ReplyPlan::End(ConnEnd::Cut),
    }
}
