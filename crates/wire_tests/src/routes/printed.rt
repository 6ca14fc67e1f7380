//! The targets of routes.

ghost use Rattle.std.specs.Prelude.{◌≡◌, Ok};
ghost use Rattle.webapi_routes.specs.Printed.{CanBeAsked};
ghost use Rattle.webapi_routes.specs.Targets.{UnlessMemory};

use row_types::BuildId;
use sample_rows::path;
use std::alloc::Global;
use std::process::Abort;
use webapi_routes::{Route, RouteFault, SectionName, parse, print};

/// The route of a target's parts.
fn route(rt: &impl Abort, alloc: Global, kind: &str, rest: &[u8]) -> Route {
    let id = BuildId::new(&[0xab, 0x0c]).expect(rt, "two bytes are an id");
    match kind {
        "debuginfo" => Route::Debuginfo(id),
        "executable" => Route::Executable(id),
        "metrics" => Route::Metrics,
        "source" => {
            let text = str::from_utf8(rest).expect(rt, "a text");
            Route::Source(id, path(alloc, text).expect(rt, "the path is canonical"))
        }
        _ => {
            let name = Vec::from_slice(alloc, rest).expect(rt, "memory");
            Route::Section(id, SectionName::new(name))
        }
    }
}

/// What a route's target says.
fn said_again(alloc: Global, route: &Route) -> Result<Route, RouteFault>
    ensures { CanBeAsked route.now → UnlessMemory result (result ≡ Ok route.now) }
{
    let target = print(alloc, route)?;
    parse(alloc, target.as_slice())
}

/// Whether the target of a route is this.
fn is_printed(rt: &impl Abort, alloc: Global, route: &Route, wanted: &str) -> bool {
    let target = print(alloc, route).expect(rt, "memory");
    target.as_slice() == wanted.as_bytes()
}

/// Whether a route's target says the route.
fn says_itself(alloc: Global, route: &Route) -> bool {
    said_again(alloc, route).is_ok_and(|said| said == *route)
}

/// What a route asks, and of what, and its target.
#[derive(Clone, Copy)]
struct Printed(&'static str, &'static [u8], &'static str);

// The reserved characters are those of RFC 3986, 2.2, and the unreserved those of 2.3.
static PRINTED: [Printed; 9] = [
    Printed("metrics", b"", "/metrics"),
    Printed("debuginfo", b"", "/buildid/ab0c/debuginfo"),
    Printed("executable", b"", "/buildid/ab0c/executable"),
    Printed("source", b"/", "/buildid/ab0c/source/"),
    Printed(
        "source",
        b"/w/a b/%25.c",
        "/buildid/ab0c/source/w/a%20b/%2525.c",
    ),
    Printed("section", b".text", "/buildid/ab0c/section/.text"),
    Printed(
        "section",
        b"AZaz09-._~/",
        "/buildid/ab0c/section/AZaz09-._~/",
    ),
    Printed(
        "section",
        b":/?#[]@!$&'()*+,;=",
        "/buildid/ab0c/section/%3A/%3F%23%5B%5D%40%21%24%26%27%28%29%2A%2B%2C%3B%3D",
    ),
    Printed(
        "section",
        b"\xc3\x80\x7f\x01",
        "/buildid/ab0c/section/%C3%80%7F%01",
    ),
];

#[test]
fn a_route_is_printed_and_its_target_says_it_again(rt: HostRuntime) {
    for Printed(kind, rest, wanted) in &PRINTED {
        let route = route(&rt, rt.alloc(), kind, rest);
        assert!(rt; is_printed(&rt, rt.alloc(), &route, wanted), "{wanted}");
        assert!(rt; says_itself(rt.alloc(), &route), "of {wanted}");
    }
}
