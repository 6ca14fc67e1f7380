//! What a route asks for, from a cache or from links, written out.

ghost use Rattle.std.specs.Prelude.{◌≡◌, ◌^◌, map};
ghost use Rattle.find_client.specs.Find.{EndsFetch, Finds, FindsHeld, HasEndCause, KeepsFetched, KeepsFile, WritesCertified, WritesThen, by_nobody};
ghost use Rattle.find_client.specs.declared.cache.TheConstants.{VALUE_LIMIT};
ghost use Rattle.find_client.specs.declared.searching.FindEnd.TheVariants.{Fetched};

use crate::cache::{Cache, CachePut};
use crate::given::given;
use crate::look::{LookEnd, look_up, name_of};
use federation::{Link, Upstream, ask_all};
use http_wire::{Sink, write_all};
use std::alloc::Global;
use std::sync::Wait;
use webapi_routes::Route;

/// How a search ended. A fault of the cache stands before one of a link.
#[derive(Clone, Copy, PartialEq, Eq)]
pub enum FindEnd {
    /// What the cache holds passed and was written whole.
    Cached,
    /// What a link answered passed and was written whole; a file is kept.
    Fetched,
    /// A file that a link answered passed and was written whole, and couldn't be kept.
    NotKept,
    /// Nothing passed, and nothing failed.
    Nothing,
    /// Nothing passed, and the cache couldn't be read.
    CacheFault,
    /// Nothing passed, and a link failed.
    LinkFault,
    /// What passed couldn't be written whole.
    WriteFault,
    /// There was not enough memory; for a file that couldn't be kept, once it was written.
    OutOfMemory,
}

/// Looks for what a route asks in the cache, and then asks the links; writes what passes, and keeps a
/// file that a link gave.
pub fn find<H: Cache, L: Link, O: Sink, Rt: Wait + Sync>(
    rt: &Rt,
    alloc: Global,
    route: &Route,
    cache: &mut H,
    links: &mut [L],
    out: &mut O,
) -> FindEnd
    ensures finds { Finds (H.shows cache.old) (map L.shows links.old) (O.shows out.old) route.now
        (H.shows cache.new) (map L.shows links.new) (O.shows out.new) result }
    ensures certified { WritesCertified route.now (O.shows out.old) (O.shows out.new) result }
    ensures cause { HasEndCause (H.shows cache.old) (map L.shows links.old) (O.shows out.old) route.now
        (H.shows cache.new) (map L.shows links.new) (O.shows out.new) result }
    ensures kept { KeepsFetched route.now (H.shows cache.old) (H.shows cache.new) (O.shows out.old) (O.shows out.new) result }
    ensures held { FindsHeld (H.shows cache.old) route.now (H.shows cache.new) (O.shows out.old)
        (O.shows out.new) result }
    ensures limit { VALUE_LIMIT ≡ 2 ^ 30 }
{
    match look_up(alloc, cache, route) {
        LookEnd::Passed(passed) => match write_all(out, given(&passed)) {
            Ok(()) => FindEnd::Cached,
            Err(_) => FindEnd::WriteFault,
        },
        LookEnd::Nothing { failed } => fetch(rt, alloc, route, cache, links, out, failed),
        LookEnd::OutOfMemory => FindEnd::OutOfMemory,
    }
}

/// Asks the links, where nothing in the cache passed, and perhaps it couldn't be read.
fn fetch<H: Cache, L: Link, O: Sink, Rt: Wait + Sync>(
    rt: &Rt,
    alloc: Global,
    route: &Route,
    cache: &mut H,
    links: &mut [L],
    out: &mut O,
    failed: bool,
) -> FindEnd
    ensures { EndsFetch (H.shows cache.old) (map L.shows links.old) (O.shows out.old) route.now failed
        (H.shows cache.new) (map L.shows links.new) (O.shows out.new) result }
{
    match ask_all(rt, alloc, links, route, 0) {
        Upstream::File(file) => match write_all(out, file.bytes()) {
            Ok(()) => keep(alloc, route, cache, file.bytes()),
            Err(_) => FindEnd::WriteFault,
        },
        Upstream::Section(section) => fetched(out, section.bytes()),
        Upstream::Source(bytes) => fetched(out, bytes.as_slice()),
        Upstream::Nobody { failed: faults, .. } => by_nobody(failed, faults),
        Upstream::HopLimit => unreachable!(),
        Upstream::OutOfMemory => FindEnd::OutOfMemory,
    }
}

/// Writes what a link's answer gave, and isn't kept.
fn fetched<O: Sink>(out: &mut O, bytes: &[u8]) -> FindEnd
    ensures { WritesThen bytes.now (O.shows out.old) (O.shows out.new) result (result ≡ Fetched) (Unit {0}) }
{
    match write_all(out, bytes) {
        Ok(()) => FindEnd::Fetched,
        Err(_) => FindEnd::WriteFault,
    }
}

/// The end where nothing passed.
fn by_nobody(failed: bool, faults: u64) -> FindEnd
    ensures { result ≡ by_nobody failed faults }
{
    if failed {
        FindEnd::CacheFault
    } else if faults > 0 {
        FindEnd::LinkFault
    } else {
        FindEnd::Nothing
    }
}

/// Keeps a file that was written. The name is the route's.
fn keep<H: Cache>(alloc: Global, route: &Route, cache: &mut H, bytes: &[u8]) -> FindEnd
    ensures { KeepsFile route.now bytes.now (H.shows cache.old) (H.shows cache.new) result }
{
    let Ok(name) = name_of(alloc, route) else {
        return FindEnd::OutOfMemory;
    };
    match cache.put(alloc, name.as_str(), bytes) {
        CachePut::Done => FindEnd::Fetched,
        CachePut::Failed => FindEnd::NotKept,
        CachePut::OutOfMemory => FindEnd::OutOfMemory,
    }
}
