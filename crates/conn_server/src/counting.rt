//! What is counted of a request that was answered.

ghost use Rattle.std.specs.Prelude.{◌≡◌, IfOk};
ghost use Rattle.dbgd_metrics.specs.Numbers.{IsCountedStatus};
ghost use Rattle.conn_server.specs.Sent.{CountsSent};
ghost use Rattle.conn_server.specs.Tallied.{CountsServed, HasRowIn, counted_route, route_name};

use crate::report::{Asked, Served};
use crate::send_fault::SendFault;
use dbgd_metrics::{Book, Count, RouteName, Share};
use webapi_routes::Route;

/// Counts a request whose reply was written whole, and nothing else.
pub(crate) fn count_sent(book: &Book, share: &mut Share, sent: &Result<Served, SendFault>)
    requires share { HasRowIn book.now share.old }
    requires status { IfOk sent.now (λ served. IsCountedStatus served.status) }
    ensures share { HasRowIn book.now share.new }
    ensures counts { CountsSent sent.now share.old share.new }
{
    match sent {
        Ok(served) => count_served(book, share, served),
        Err(_) => {}
    }
}

/// Counts a request that was answered. Where one of the numbers has no room for it, the share is
/// marked, and nothing is counted.
fn count_served(book: &Book, share: &mut Share, served: &Served)
    requires share { HasRowIn book.now share.old }
    requires status { IsCountedStatus served.now.status }
    ensures share { HasRowIn book.now share.new }
    ensures counts { CountsServed served.now share.old share.new }
{
    let route = counted_route(&served.asked);
    book.count(
        share,
        Count::Request {
            route,
            status: served.status,
            bytes: served.len,
        },
    );
}

/// The name under which a request is counted.
fn counted_route(asked: &Asked) -> RouteName
    ensures { result ≡ counted_route asked.now }
{
    match asked {
        Asked::Route(route) => route_name(route),
        Asked::NotRoute(_) | Asked::Method | Asked::Body | Asked::Head(_) => RouteName::Other,
    }
}

/// The name under which a route is counted.
fn route_name(route: &Route) -> RouteName
    ensures { result ≡ route_name route.now }
{
    match route {
        Route::Debuginfo(_) => RouteName::Debuginfo,
        Route::Executable(_) => RouteName::Executable,
        Route::Source(_, _) => RouteName::Source,
        Route::Section(_, _) => RouteName::Section,
        Route::Metrics => RouteName::Metrics,
    }
}
