//! What a request is answered.

ghost use Rattle.std.specs.Prelude.{◌≡◌, ◌≢◌};
ghost use Rattle.index_lock.specs.Tokens.{IsLater};
ghost use Rattle.row_types.specs.Name.{NameFacts};
ghost use Rattle.webapi_routes.specs.declared.route.Route.TheVariants.{Metrics};
ghost use Rattle.conn_server.specs.Asked.{IsLookedUp, readable, told_facts};
ghost use Rattle.conn_server.specs.Bodies.{body_facts, decided_facts};
ghost use Rattle.conn_server.specs.Decided.{Decides, DecidesRoute, by_page, for_route, plain};
ghost use Rattle.conn_server.specs.Objects.{StayLent, setting_by, stage_by};

use crate::body::Body;
use crate::follow::follow_local;
use crate::method::is_served;
use crate::objects::Objects;
use crate::page::decide_page;
use crate::reason::{Reason, reason_of_route};
use crate::report::Asked;
use crate::service::Service;
use answer_core::answer_local;
use federation::Link;
use http_wire::Head;
use index_desk::Desk;
use index_keeper::Keeper;
use row_types::Truth;
use std::alloc::AllocError;
use std::sync::Wait;
use tree_trait::{Gate, Point, Tree};
use webapi_routes::{Route, parse};

/// What is asked, and how it is answered. `F` is the hand's open file.
#[derive(Drop)]
pub(crate) struct Decided<F: Drop> {
    /// What is asked.
    pub asked: Asked,
    /// Why it gets its reply.
    pub reason: Reason,
    /// The length of the index's log as it was asked.
    pub generation: u64,
    /// What its reply carries.
    pub body: Body<F>,
}

/// Decides by the head alone, by the page that its target asks for, or by what answers its route.
pub(crate) fn decide<'d, W: Truth, K: Keeper<W>, T: Tree<W>, L: Link, G: Gate, R: Wait + Sync>(
    service: &Service<'_, G, R>,
    desk: Desk<'d, W, K>,
    objects: &mut Objects<'_, T, L>,
    head: &Head<'_>,
) -> (Desk<'d, W, K>, Decided<T::File>)
    ensures later { IsLater desk.entry.seat result.0.seat }
    ensures same { StayLent objects.old objects.new }
    ensures decided { Decides
        (setting_by W.true_row T.told W.version T.shows service.now.folders.now objects.old)
        (stage_by L.shows desk.entry.seat objects.old) (readable (told_facts head.now))
        (decided_facts T.opened result.1) (stage_by L.shows result.0.seat objects.new) }
{
    if !is_served(head.method) {
        return (desk, plain(Asked::Method, Reason::Method));
    }
    if head.has_body {
        return (desk, plain(Asked::Body, Reason::Body));
    }
    let (desk, page) = decide_page(service, desk, head.target);
    match page {
        Some(decided) => (desk, decided),
        None => decide_target(service, desk, objects, head),
    }
}

/// Decides by the route that a target asks for, which is none of a page.
fn decide_target<'d, W: Truth, K: Keeper<W>, T: Tree<W>, L: Link, G: Gate, R: Wait + Sync>(
    service: &Service<'_, G, R>,
    desk: Desk<'d, W, K>,
    objects: &mut Objects<'_, T, L>,
    head: &Head<'_>,
) -> (Desk<'d, W, K>, Decided<T::File>)
    requires looked { IsLookedUp (told_facts head.now) }
    ensures later { IsLater desk.entry.seat result.0.seat }
    ensures same { StayLent objects.old objects.new }
    ensures decided { Decides
        (setting_by W.true_row T.told W.version T.shows service.now.folders.now objects.old)
        (stage_by L.shows desk.entry.seat objects.old) (readable (told_facts head.now))
        (decided_facts T.opened result.1) (stage_by L.shows result.0.seat objects.new) }
{
    match parse(service.alloc, head.target) {
        Ok(route) => decide_route(service, desk, objects, route, head.hops),
        Err(fault) => (desk, plain(Asked::NotRoute(fault), reason_of_route(fault))),
    }
}

/// Decides by the page of the counters, or by what answers a route that came through so many forwarders.
fn decide_route<'d, W: Truth, K: Keeper<W>, T: Tree<W>, L: Link, G: Gate, R: Wait + Sync>(
    service: &Service<'_, G, R>,
    desk: Desk<'d, W, K>,
    objects: &mut Objects<'_, T, L>,
    route: Route,
    hops: u64,
) -> (Desk<'d, W, K>, Decided<T::File>)
    ensures later { IsLater desk.entry.seat result.0.seat }
    ensures same { StayLent objects.old objects.new }
    ensures decided { DecidesRoute
        (setting_by W.true_row T.told W.version T.shows service.now.folders.now objects.old)
        (stage_by L.shows desk.entry.seat objects.old) route hops
        (decided_facts T.opened result.1) (stage_by L.shows result.0.seat objects.new) }
{
    match route {
        Route::Metrics => {
            let page = objects.book.text(service.alloc, objects.share);
            (desk, by_page(page))
        }
        _ => decide_file(service, desk, objects, route, hops),
    }
}

/// Decides by the local answer to a route, and then by the links.
fn decide_file<'d, W: Truth, K: Keeper<W>, T: Tree<W>, L: Link, G: Gate, R: Wait + Sync>(
    service: &Service<'_, G, R>,
    desk: Desk<'d, W, K>,
    objects: &mut Objects<'_, T, L>,
    route: Route,
    hops: u64,
) -> (Desk<'d, W, K>, Decided<T::File>)
    requires route { route ≢ Metrics }
    ensures later { IsLater desk.entry.seat result.0.seat }
    ensures same { StayLent objects.old objects.new }
    ensures decided { DecidesRoute
        (setting_by W.true_row T.told W.version T.shows service.now.folders.now objects.old)
        (stage_by L.shows desk.entry.seat objects.old) route hops
        (decided_facts T.opened result.1) (stage_by L.shows result.0.seat objects.new) }
{
    let (rt, gate) = (service.rt, service.gate);
    gate.at(rt, &Point::Asking(service.number));
    let Desk { lock, seat } = desk;
    let (seat, local) = answer_local(
        rt,
        service.alloc,
        lock,
        seat,
        objects.hand,
        &route,
        service.folders,
        gate,
    );
    let decided = follow_local(rt, service.alloc, objects.links, route, hops, local);
    (Desk { lock, seat }, decided)
}

/// What is decided without the index.
pub(crate) fn plain<F: Drop>(asked: Asked, why: Reason) -> Decided<F>
    ensures { (opened : F → NameFacts) → decided_facts opened result ≡ plain asked why }
{
    Decided {
        asked,
        reason: why,
        generation: 0,
        body: Body::Line,
    }
}

/// What is decided by the page of the counters.
fn by_page<F: Drop>(page: Result<String, AllocError>) -> Decided<F>
    ensures { (opened : F → NameFacts) → decided_facts opened result ≡ by_page page }
{
    match page {
        Ok(text) => for_route(Route::Metrics, Reason::Metrics, 0, Body::Page(text)),
        Err(_) => for_route(Route::Metrics, Reason::OutOfMemory, 0, Body::Line),
    }
}

/// What is decided for a route.
pub(crate) fn for_route<F: Drop>(
    route: Route,
    why: Reason,
    generation: u64,
    body: Body<F>,
) -> Decided<F>
    ensures { (opened : F → NameFacts) → decided_facts opened result
        ≡ for_route route why generation (body_facts opened generation body) }
{
    Decided {
        asked: Asked::Route(route),
        reason: why,
        generation,
        body,
    }
}
