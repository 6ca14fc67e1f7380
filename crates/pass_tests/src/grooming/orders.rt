//! Several rows, by two threads.

ghost use Rattle.std.specs.Prelude.{◌≡◌};
ghost use Rattle.std.specs.Thread.{IsSync};

use crate::grooming::helpers::index_of;
use crate::rig::{file, still_tree};
use groomer::{GroomReport, groom};
use index_desk::WorkEnd;
use row_types::OpenWorld;
use sample_index::{
    Index, Lock, Outcome, Shared, Token, begin, cut, outcome_of, put_behind, taken,
};
use std::alloc::Global;
use std::process::Abort;
use std::sync::Wait;
use std::thread::{Threads, join};
use tree_trait::{MemTree, NoGate};

/// The files whose rows stand.
static FILES: [(&str, u64); 5] = [
    ("/other/a", 1),
    ("/srv/a", 1),
    ("/srv/b", 1),
    ("/srv/c", 1),
    ("/srv/d", 1),
];

/// The index with their rows, in a pass over `/srv` that lists nothing.
fn index(rt: &impl Abort, alloc: Global) -> Index<OpenWorld> {
    let mut index = index_of(rt, alloc, None, &FILES);
    begin(alloc, &mut index, Vec::new(alloc), "/srv").expect(rt, "a pass begins");
    index
}

/// The tree of a changed `/srv/b` and of `/srv/c` as it was; the calls of these numbers fail.
fn tree(rt: &impl Abort, alloc: Global, bad_calls: &[u64]) -> MemTree<OpenWorld> {
    let changed = file(rt, alloc, "/srv/b", 2);
    let same = file(rt, alloc, "/srv/c", 1);
    let files = vec![in alloc; changed, same].expect(rt, "memory");
    still_tree(rt, alloc, files, bad_calls)
}

/// What a groomer gives back.
type Groomed = (Token<OpenWorld>, MemTree<OpenWorld>, GroomReport);

/// Lets two groomers work, each with a hand, in threads of their own.
fn groom_by_two<R: Threads + Wait + Sync>(
    rt: &R,
    alloc: Global,
    lock: &Lock<OpenWorld>,
    tokens: (Token<OpenWorld>, Token<OpenWorld>),
    one: MemTree<OpenWorld>,
    other: MemTree<OpenWorld>,
) -> (Token<OpenWorld>, (GroomReport, GroomReport))
    requires { (tokens.0.lock ≡ lock.now) × (tokens.1.lock ≡ lock.now) }
    ensures { result.0.lock ≡ lock.now }
{
    let (first, second) = tokens;
    let (first, second) = join(
        rt,
        || -> Groomed
            requires { IsSync R.row × (first.lock ≡ lock.now) }
            ensures { result.0.lock ≡ lock.entry.now }
        { groom(rt, alloc, lock, first, one, &NoGate) },
        || -> Groomed
            requires { IsSync R.row × (second.lock ≡ lock.now) }
            ensures { result.0.lock ≡ lock.entry.now }
        { groom(rt, alloc, lock, second, other, &NoGate) },
    );
    (lock.join(first.0, second.0), (first.2, second.2))
}

/// What the work of two groomers comes to.
fn outcome_of_two<R: Abort + Threads + Wait + Sync>(
    rt: &R,
    alloc: Global,
) -> Outcome<(GroomReport, GroomReport)> {
    let Shared { lock, seat } = put_behind(alloc, index(rt, alloc)).expect(rt, "memory");
    let tokens = cut(&lock, seat).expect(rt, "memory");
    let one = tree(rt, alloc, &[]);
    let other = tree(rt, alloc, &[]);
    let (seat, reports) = groom_by_two(rt, alloc, &lock, tokens, one, other);
    outcome_of(alloc, taken(rt, Shared { lock, seat }), reports).expect(rt, "memory")
}

#[test]
fn two_groomers_drop_each_row_once(rt: HostRuntime) {
    let outcome = outcome_of_two(&rt, rt.alloc());
    let (first, second) = outcome.report;
    assert!(rt; (first.end, second.end) == (WorkEnd::Empty, WorkEnd::Empty));
    assert!(rt; first.dropped.saturating_add(second.dropped) == 4);
    assert!(rt; first.missed.saturating_add(second.missed) == 1);
    assert!(rt; outcome.rows.as_str() == "/srv/c 1, ");
}
