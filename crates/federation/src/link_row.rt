//! The links, one after the other.

ghost use Rattle.std.specs.Prelude.{◌≡◌, map};
ghost use Rattle.federation.specs.Rows.{AsksRow, with_more};

use crate::link::Link;
use crate::one_link::{LinkEnd, ask_link};
use answer_check::Passed;
use std::alloc::Global;
use std::sync::Wait;
use webapi_routes::Route;

/// What the links from one on gave.
#[derive(Drop)]
pub(crate) enum RowEnd {
    /// An answer passes.
    Passed(Passed),
    /// None passes: so many didn't, and so often a link failed.
    Nobody { refused: u64, failed: u64 },
    /// There was not enough memory.
    OutOfMemory,
}

/// Asks the links in order, until an answer passes.
pub(crate) fn ask_row<L: Link, Rt: Wait + Sync>(
    rt: &Rt,
    alloc: Global,
    links: &mut [L],
    route: &Route,
    hops: u64,
) -> RowEnd
    ensures { AsksRow (map L.shows links.old) route.now hops (map L.shows links.new) result }
{
    match links.split_first_mut() {
        None => RowEnd::Nobody {
            refused: 0,
            failed: 0,
        },
        Some((link, rest)) => match ask_link(rt, alloc, link, route, hops) {
            LinkEnd::Passed(given) => RowEnd::Passed(given),
            LinkEnd::OutOfMemory => RowEnd::OutOfMemory,
            LinkEnd::Nothing { refused, failed } => {
                with_more(ask_row(rt, alloc, rest, route, hops), refused, failed)
            }
        },
    }
}

/// What the links gave, with so many answers more.
fn with_more(told: RowEnd, refused: u64, failed: u64) -> RowEnd
    ensures { result ≡ with_more told refused failed }
{
    match told {
        RowEnd::Nobody {
            refused: r,
            failed: f,
        } => RowEnd::Nobody {
            refused: refused.saturating_add(r),
            failed: failed.saturating_add(f),
        },
        RowEnd::Passed(given) => RowEnd::Passed(given),
        RowEnd::OutOfMemory => RowEnd::OutOfMemory,
    }
}
