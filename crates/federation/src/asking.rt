//! The first answer of other servers that passes.

ghost use Rattle.std.specs.Prelude.{◌≡◌, map};
ghost use Rattle.federation.specs.AskAll.{AsksLinks};
ghost use Rattle.federation.specs.Rows.{upstream_given, upstream_of_row};

use crate::link::Link;
use crate::link_row::{RowEnd, ask_row};
use answer_check::{Certified, FileSection, Passed};
use std::alloc::Global;
use std::sync::Wait;
use webapi_routes::Route;

/// How many forwarders a question may have come through, so that no link is asked.
pub const HOP_LIMIT: u64 = 8;

/// What the links gave.
#[derive(Drop)]
pub enum Upstream {
    /// A file of the build-id and the class that are asked.
    File(Certified),
    /// The section that is asked, of a file of the build-id.
    Section(FileSection),
    /// The source that is asked, as it came.
    Source(Vec<u8>),
    /// No answer passes.
    Nobody {
        /// How many answers didn't pass, up to 2^64 - 1.
        refused: u64,
        /// How often a link failed, up to 2^64 - 1.
        failed: u64,
    },
    /// There is a link, and the question came through too many forwarders: none was asked.
    HopLimit,
    /// There was not enough memory.
    OutOfMemory,
}

/// Asks the links in order, with the number of forwarders that the question came through, and gives the
/// first answer that passes: of status 200, a file that is certified for the route, a section that is
/// cut here from a certified file, or any source.
pub fn ask_all<L: Link, Rt: Wait + Sync>(
    rt: &Rt,
    alloc: Global,
    links: &mut [L],
    route: &Route,
    hops: u64,
) -> Upstream
    ensures asks { AsksLinks (map L.shows links.old) route.now hops (map L.shows links.new) result }
    ensures limit { HOP_LIMIT ≡ 8 }
{
    if hops < HOP_LIMIT {
        return upstream_of_row(ask_row(rt, alloc, links, route, hops));
    }
    if links.len() > 0 {
        return Upstream::HopLimit;
    }
    Upstream::Nobody {
        refused: 0,
        failed: 0,
    }
}

/// What is told of all links.
fn upstream_of_row(told: RowEnd) -> Upstream
    ensures { result ≡ upstream_of_row told }
{
    match told {
        RowEnd::Passed(given) => upstream_given(given),
        RowEnd::Nobody { refused, failed } => Upstream::Nobody { refused, failed },
        RowEnd::OutOfMemory => Upstream::OutOfMemory,
    }
}

/// What is told of an answer that passes.
fn upstream_given(given: Passed) -> Upstream
    ensures { result ≡ upstream_given given }
{
    match given {
        Passed::File(file) => Upstream::File(file),
        Passed::Section(section) => Upstream::Section(section),
        Passed::Source(bytes) => Upstream::Source(bytes),
    }
}
