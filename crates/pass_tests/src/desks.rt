//! The calls of a desk, each in one hold of its lock, over a told world and a store in memory.

ghost use Rattle.std.specs.Prelude.{◌≡◌, None};

use crate::rig::{Version, listed, version_name, version_tree};
use elf_reading::ElfReader;
use index_desk::Desk;
use index_keeper::MemKeeper;
use index_state::{Begun, Judged, Plan, Published};
use path_scope::AllPaths;
use row_types::TrueRow;
use sample_index::{Unspared, empty_shared};
use sample_rows::{name_text, paths};
use scan_queue::{Cause, Listing, Seen};
use scan_worker::{NameRead, read_name};
use std::alloc::Global;
use std::process::Abort;
use std::sync::Wait;
use tree_trait::TwoWorld;

/// A desk of the told world.
type TwoDesk<'a> = Desk<'a, TwoWorld, MemKeeper<TwoWorld>>;

/// The row of `x`, as it is read.
fn row(rt: &impl Abort, alloc: Global) -> TrueRow<TwoWorld> {
    let mut hand = version_tree(rt, alloc, Some(Version::First), false);
    let name = version_name(rt, alloc, Version::First);
    match read_name(alloc, &mut hand, &ElfReader, &name) {
        NameRead::Row(row) => row,
        _ => panic!(rt; "the file is read"),
    }
}

/// Takes the next name, as a text.
fn take<'a, R: Abort + Wait>(rt: &R, alloc: Global, desk: TwoDesk<'a>) -> (TwoDesk<'a>, String) {
    let (desk, name) = desk.take(rt);
    match name {
        Some(name) => (desk, name_text(alloc, &name).expect(rt, "memory")),
        None => (desk, String::new(alloc)),
    }
}

/// Begins a pass over `x`.
fn begin_over<'a, R: Abort + Wait>(rt: &R, alloc: Global, desk: TwoDesk<'a>) -> (TwoDesk<'a>, Begun)
    requires { desk.seat.origin.sparing ≡ None }
{
    let roots = paths(alloc, &["/w"]).expect(rt, "a path");
    let Ok(listing) = Listing::new(listed(rt, alloc, Some(Version::First))) else {
        panic!(rt; "a name is by path")
    };
    desk.begin(rt, alloc, listing, roots, &mut AllPaths)
}

/// Misses the name that is out, and has it tried again.
fn try_again<'a, R: Abort + Wait>(rt: &R, alloc: Global, desk: TwoDesk<'a>) -> TwoDesk<'a> {
    let name = version_name(rt, alloc, Version::First);
    let (desk, was_out) = desk.miss(rt, &name, Cause::ReadFault);
    assert!(rt; was_out);
    let (desk, count) = desk.retry(rt);
    assert!(rt; count.expect(rt, "memory") == 1);
    desk
}

#[test]
fn a_name_is_tried_again_and_its_row_is_published_and_judged(rt: HostRuntime) {
    let alloc = rt.alloc();
    let Unspared { lock, seat } = empty_shared(alloc, None).expect(&rt, "an index");
    let (desk, begun) = begin_over(&rt, alloc, Desk { lock: &lock, seat });
    assert!(rt;
        matches!(
            begun,
            Begun::Begun(Plan {
                files: 1,
                add: 1,
                ..
            })
        )
    );
    let (desk, name) = take(&rt, alloc, desk);
    assert!(rt; name.as_str() == "/w/a 1, ");
    let desk = try_again(&rt, alloc, desk);
    let (desk, said) = desk.publish(&rt, alloc, row(&rt, alloc));
    assert!(rt; said == Published::Added);
    let name = version_name(&rt, alloc, Version::First);
    let (_, judged) = desk.judge(&rt, alloc, &name, Seen::Gone);
    assert!(rt; judged == Judged::Kept);
}
