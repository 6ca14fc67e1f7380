//! What targets say.

use row_types::BuildId;
use std::alloc::{AllocError, Global};
use std::process::Abort;
use webapi_routes::{Route, parse};

/// A target, and what it says.
#[derive(Clone, Copy)]
struct Case(&'static [u8], &'static str);

/// The requests of the reference tree, and at the edges.
static REQUESTS: [Case; 13] = [
    Case(
        b"/buildid/202122232425262728292a2b2c2d2e2f30313233/debuginfo",
        "debuginfo 202122232425262728292a2b2c2d2e2f30313233",
    ),
    Case(
        b"/buildid/404142434445464748494a4b4c4d4e4f50515253/executable",
        "executable 404142434445464748494a4b4c4d4e4f50515253",
    ),
    Case(
        b"/buildid/404142434445464748494a4b4c4d4e4f50515253/debuginfo",
        "debuginfo 404142434445464748494a4b4c4d4e4f50515253",
    ),
    Case(
        b"/buildid/404142434445464748494a4b4c4d4e4f50515253/section/.text",
        "section 404142434445464748494a4b4c4d4e4f50515253 .text",
    ),
    Case(
        b"/buildid/404142434445464748494a4b4c4d4e4f50515253/section/.debug_zz",
        "section 404142434445464748494a4b4c4d4e4f50515253 .debug_zz",
    ),
    Case(
        b"/buildid/202122232425262728292a2b2c2d2e2f30313233/source/w/src/main.c",
        "source 202122232425262728292a2b2c2d2e2f30313233 /w/src/main.c",
    ),
    Case(
        b"/buildid/a0a1a2a3a4a5a6a7/executable",
        "executable a0a1a2a3a4a5a6a7",
    ),
    Case(
        b"/buildid/202122232425262728292A2B2C2D2E2F30313233/debuginfo",
        "debuginfo 202122232425262728292a2b2c2d2e2f30313233",
    ),
    Case(b"/buildid/abc/debuginfo", "BadId"),
    Case(
        b"/buildid/202122232425262728292a2b2c2d2e2f30313233/source/w/src/inc/%2e%2e/main.c",
        "source 202122232425262728292a2b2c2d2e2f30313233 /w/src/main.c",
    ),
    Case(
        b"/buildid/202122232425262728292a2b2c2d2e2f30313233/debug%zz",
        "BadEscape",
    ),
    Case(b"/metrics", "metrics"),
    Case(b"/nothing", "NoRoute"),
];

/// Forms that are nearly a route's, queries, and faults in their order.
static FORMS: [Case; 35] = [
    Case(b"", "NoRoute"),
    Case(b"?", "NoRoute"),
    Case(b"/", "NoRoute"),
    Case(b"/buildid/", "NoRoute"),
    Case(b"/buildid/abcd", "NoRoute"),
    Case(b"/buildid/abcd/", "NoRoute"),
    Case(b"/buildid/debuginfo", "NoRoute"),
    Case(b"/buildid//debuginfo", "BadId"),
    Case(b"/buildid/abcd/debuginfo", "debuginfo abcd"),
    Case(b"/buildid/abcd/debuginfo/", "NoRoute"),
    Case(b"/buildid/abcd/Debuginfo", "NoRoute"),
    Case(b"/buildid/abcd//debuginfo", "NoRoute"),
    Case(b"//buildid/abcd/debuginfo", "NoRoute"),
    Case(b"buildid/abcd/debuginfo", "NoRoute"),
    Case(b"http://host/buildid/abcd/debuginfo", "NoRoute"),
    Case(b"/buildid/abcd/executable?/debuginfo", "executable abcd"),
    Case(b"/buildid/abcd?/executable", "NoRoute"),
    Case(b"/buildid/abcd/debuginfo?%zz\x00", "debuginfo abcd"),
    Case(b"/buildid/abcd/source", "NoRoute"),
    Case(b"/buildid/abcd/sources/a", "NoRoute"),
    Case(b"/buildid/abcd/source/", "source abcd /"),
    Case(b"/buildid/abcd/source//a/./b/../c/", "source abcd /a/c"),
    Case(b"/buildid/abcd/section", "NoRoute"),
    Case(b"/buildid/abcd/section/", "NoRoute"),
    Case(b"/buildid/abcd/section/a/../b", "section abcd a/../b"),
    Case(b"/metrics?a=b", "metrics"),
    Case(b"/metrics/", "NoRoute"),
    Case(b"//metrics", "NoRoute"),
    Case(b"metrics", "NoRoute"),
    Case(b"/Metrics", "NoRoute"),
    Case(b"/metric", "NoRoute"),
    Case(b"/nothing/%zz", "BadEscape"),
    Case(b"/buildid/xyz/nothing", "NoRoute"),
    Case(b"/buildid/ab/debuginfo", "BadId"),
    Case(b"/buildid/abcg/source/a", "BadId"),
];

// The examples of RFC 3986, 2.5, are U+00C0 and U+30A2; one in ISO 8859-1 is `%E4`.
static ESCAPES: [Case; 18] = [
    Case(b"%", "BadEscape"),
    Case(b"/%4", "BadEscape"),
    Case(b"/%g1", "BadEscape"),
    Case(b"/%1g", "BadEscape"),
    Case(b"/%%41", "BadEscape"),
    Case(b"/%41%", "BadEscape"),
    Case(b"/%41", "NoRoute"),
    Case(b"/m%65trics", "metrics"),
    Case(b"/%62uildid%2Fabcd%2fdebuginf%6F", "debuginfo abcd"),
    Case(b"/buildid/%61%42cd/debuginfo", "debuginfo abcd"),
    Case(b"/buildid/ab%2Fcd/debuginfo", "NoRoute"),
    Case(
        b"/buildid/abcd/section/%C3%80%e3%82%a2",
        "section abcd \u{c0}\u{30a2}",
    ),
    Case(b"/buildid/abcd/section/%2541%3f", "section abcd %41?"),
    Case(b"/buildid/abcd/section/%E4", "BadEscape"),
    Case(b"/buildid/abcd/section/\xe4", "BadEscape"),
    Case(b"/buildid/abcd/section/\xc3\x80", "section abcd \u{c0}"),
    Case(b"/buildid/abcd/section/a%00", "BadEscape"),
    Case(b"/buildid/abcd/section/a\x00", "BadEscape"),
];

/// A route of a build-id, as a line.
fn line_of_id(
    rt: &impl Abort,
    alloc: Global,
    route: &Route,
    id: &BuildId,
) -> Result<String, AllocError> {
    let id = id.print(alloc).expect(rt, "memory");
    match route {
        Route::Debuginfo(_) => format!(in alloc; "debuginfo {id}"),
        Route::Executable(_) => format!(in alloc; "executable {id}"),
        Route::Source(_, path) => format!(in alloc; "source {id} {}", path.text()),
        Route::Section(_, name) => {
            let name = str::from_utf8(name.bytes()).expect(rt, "a text");
            format!(in alloc; "section {id} {name}")
        }
        Route::Metrics => panic!(rt; "a build-id of the counters"),
    }
}

/// A route as a line.
fn line_of_route(rt: &impl Abort, alloc: Global, route: &Route) -> Result<String, AllocError> {
    match route.build_id() {
        Some(id) => line_of_id(rt, alloc, route, id),
        None => String::from_str(alloc, "metrics"),
    }
}

/// What a target says, as a line: a route, or a fault.
fn line_of(rt: &impl Abort, alloc: Global, target: &[u8]) -> String {
    let line = match parse(alloc, target) {
        Ok(route) => line_of_route(rt, alloc, &route),
        Err(fault) => format!(in alloc; "{fault:?}"),
    };
    line.expect(rt, "memory")
}

#[test]
fn a_target_says_a_route_or_its_first_fault(rt: HostRuntime) {
    for cases in [REQUESTS.as_slice(), FORMS.as_slice(), ESCAPES.as_slice()] {
        for Case(target, wanted) in cases {
            let line = line_of(&rt, rt.alloc(), target);
            assert!(rt; line.as_str() == *wanted, "{line} for {wanted}");
        }
    }
}
