//! What a route is answered by its local answer, and by the links where no candidate passed.

ghost use Rattle.std.specs.Prelude.{◌≡◌, map};
ghost use Rattle.row_types.specs.Name.{NameFacts};
ghost use Rattle.answer_core.specs.Local.{local_facts};
ghost use Rattle.conn_server.specs.Bodies.{body_facts, decided_facts, found_upstream};
ghost use Rattle.conn_server.specs.Decided.{FollowsLinks, FollowsLocal, by_links, for_route, for_unfound};
ghost use Rattle.conn_server.specs.declared.reason.Reason.TheVariants as reason;

use crate::body::Body;
use crate::decide::{Decided, for_route, plain};
use crate::reason::Reason;
use crate::report::Asked;
use answer_check::Passed;
use answer_core::Local;
use federation::{Link, Upstream, ask_all};
use std::alloc::Global;
use std::sync::Wait;
use webapi_routes::Route;

/// Decides by a local answer, and where no candidate passed by the links.
pub(crate) fn follow_local<F: Drop, L: Link, R: Wait + Sync>(
    rt: &R,
    alloc: Global,
    links: &mut [L],
    route: Route,
    hops: u64,
    local: Local<F>,
) -> Decided<F>
    ensures { (opened : F → NameFacts) → FollowsLocal (map L.shows links.old) route hops
        (local_facts opened local) (decided_facts opened result) (map L.shows links.new) }
{
    match local {
        Local::File {
            from,
            file,
            path,
            gen_,
        } => passed(route, gen_, Body::File { from, file, path }),
        Local::Section { from, path, gen_ } => passed(route, gen_, Body::Section { from, path }),
        Local::Source { bytes, path, gen_ } => passed(route, gen_, Body::Source { bytes, path }),
        Local::Nothing { gen_ } => follow_links(rt, alloc, links, route, hops, gen_, false),
        Local::Fault { gen_ } => follow_links(rt, alloc, links, route, hops, gen_, true),
        Local::OutOfMemory => plain(Asked::Route(route), Reason::OutOfMemory),
    }
}

/// Decides by the links, where no candidate passed at a generation, and perhaps a load failed.
fn follow_links<F: Drop, L: Link, R: Wait + Sync>(
    rt: &R,
    alloc: Global,
    links: &mut [L],
    route: Route,
    hops: u64,
    generation: u64,
    failed: bool,
) -> Decided<F>
    ensures { (opened : F → NameFacts) → FollowsLinks (map L.shows links.old) route hops generation failed
        (decided_facts opened result) (map L.shows links.new) }
{
    let told = ask_all(rt, alloc, links, &route, hops);
    by_links(route, generation, failed, told)
}

/// What is decided by what is told of the links.
fn by_links<F: Drop>(route: Route, generation: u64, failed: bool, told: Upstream) -> Decided<F>
    ensures { (opened : F → NameFacts)
        → decided_facts opened result ≡ by_links route generation failed told }
{
    match told {
        Upstream::File(file) => forwarded(route, generation, Passed::File(file)),
        Upstream::Section(section) => forwarded(route, generation, Passed::Section(section)),
        Upstream::Source(bytes) => forwarded(route, generation, Passed::Source(bytes)),
        Upstream::Nobody { failed: faults, .. } => {
            let why = if faults == 0 {
                Reason::NotFound
            } else {
                Reason::UpstreamFault
            };
            for_unfound(route, generation, failed, why)
        }
        Upstream::HopLimit => for_unfound(route, generation, failed, Reason::HopLimit),
        Upstream::OutOfMemory => plain(Asked::Route(route), Reason::OutOfMemory),
    }
}

/// What is decided where nothing passed: a load that failed comes before what is said of the links.
fn for_unfound<F: Drop>(route: Route, generation: u64, failed: bool, why: Reason) -> Decided<F>
    ensures { (opened : F → NameFacts)
        → decided_facts opened result ≡ for_unfound route generation failed why }
{
    let said = if failed { Reason::ReadFault } else { why };
    for_route(route, said, generation, Body::Line)
}

/// What is decided where the answer of a link passed.
fn forwarded<F: Drop>(route: Route, generation: u64, given: Passed) -> Decided<F>
    ensures { (opened : F → NameFacts)
        → decided_facts opened result ≡ for_route route reason.Upstream generation (found_upstream given) }
{
    for_route(route, Reason::Upstream, generation, Body::Upstream(given))
}

/// What is decided where a candidate passed.
fn passed<F: Drop>(route: Route, generation: u64, body: Body<F>) -> Decided<F>
    ensures { (opened : F → NameFacts) → decided_facts opened result
        ≡ for_route route reason.Local generation (body_facts opened generation body) }
{
    for_route(route, Reason::Local, generation, body)
}
