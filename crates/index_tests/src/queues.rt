//! What no clause says: that memory suffices for a copy of a listing, for a pass, and for its being
//! tried again.

ghost use Rattle.std.specs.Prelude.{◌≡◌};
ghost use Rattle.scan_queue.specs.Pass.{names_of};

use row_types::Name;
use sample_rows::{names, path};
use scan_queue::{Counts, Listing, Pass};
use std::alloc::Global;
use std::process::Abort;

/// The listing of files of these paths and sizes.
fn listing(rt: &impl Abort, alloc: Global, files: &[(&str, u64)]) -> Listing {
    let names = names(alloc, files).expect(rt, "names");
    Listing::new(names).ok().expect(rt, "names by path")
}

/// The names, of which those of files of four bytes are marked.
fn large_marked(rt: &impl Abort, alloc: Global, names: Vec<Name>) -> Vec<(Name, bool)>
    ensures { names_of result.items ≡ names.items }
{
    let mut current = Vec::new(alloc);
    for name in names {
        let mark = name.stamp.size == 4;
        current.push((name, mark)).expect(rt, "memory");
    }
    current
}

/// A pass over a copy of the listing. One listed name is current, one is current with another
/// stamp, one isn't; two current names aren't listed, of which the first is marked.
fn begun(rt: &impl Abort, alloc: Global) -> Pass {
    let rows = listing(rt, alloc, &[("/a", 1), ("/b", 1), ("/c", 4), ("/e", 1)]).into_names();
    let listing = listing(rt, alloc, &[("/a", 1), ("/b", 2), ("/d", 3)]);
    let copy = listing.copy(alloc).expect(rt, "memory");
    Pass::begin(alloc, copy, large_marked(rt, alloc, rows))
        .ok()
        .expect(rt, "ample memory")
}

#[test]
fn names_that_are_out_are_tried_again(rt: HostRuntime) {
    let mut pass = begun(&rt, rt.alloc());
    assert!(rt; pass.take().is_some() && pass.groom_take().is_some());
    pass.refill().expect(&rt, "memory");
    assert!(rt; pass.retry() == 2);
    let counts = Counts {
        todo: 2,
        out: 0,
        groom: 3,
        missed: 0,
    };
    assert!(rt; pass.counts() == counts);
}

/// Paths, and whether a name of each is marked.
static MARKS: [(&str, bool); 6] = [
    ("/a", false),
    ("/b", false),
    ("/c", true),
    ("/c/a", false),
    ("/d", false),
    ("/e", false),
];

/// Compares which paths are marked.
fn compare_marks(rt: &impl Abort, alloc: Global, pass: &Pass) {
    for (text, want) in &MARKS {
        let path = path(alloc, text).expect(rt, "a path");
        assert!(rt; pass.is_marked(&path) == *want, "{text}");
    }
}

#[test]
fn a_mark_stays_whatever_becomes_of_the_name(rt: HostRuntime) {
    let alloc = rt.alloc();
    let mut pass = begun(&rt, alloc);
    compare_marks(&rt, alloc, &pass);
    for _ in 0..3 {
        let name = pass.groom_take().expect(&rt, "a name is left");
        assert!(rt; pass.done(&name));
        compare_marks(&rt, alloc, &pass);
    }
}
