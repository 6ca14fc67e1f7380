//! The rows have the first of two versions of a file, and the second is listed. It is published,
//! and the first is judged by what stands there, in both orders.

use crate::states::helpers::{NO_PLAN, NOTHING, ended, taken_text};
use crate::states::told::{Version, begin_over, name_of, row_of, scan, stamp_of};
use index_state::{Begun, GroomTask, Judged, Plan, Published, Standing};
use sample_index::{Index, empty_store, opened};
use scan_queue::Seen;
use std::alloc::Global;
use std::process::Abort;
use tree_trait::TwoWorld;

/// An order of the two calls, and what they come to.
#[derive(Clone, Copy)]
struct Order {
    /// What the case shows.
    shows: &'static str,
    /// Whether the first version is judged before the second is published.
    judges_first: bool,
    /// What is answered to the publishing and to the judging, as `{:?}` writes it.
    answers: &'static str,
    /// How many changes there are in the end.
    log: u64,
}

/// Both orders.
static ORDERS: &[Order] = &[
    Order {
        shows: "published before it is judged",
        judges_first: false,
        answers: "Replaced, Moved { now: Some(Stamp { size: 2, secs: 2, nanos: 0 }) }",
        log: 2,
    },
    Order {
        shows: "judged before it is published",
        judges_first: true,
        answers: "Added, Dropped",
        log: 3,
    },
];

/// Has the first version's row, and begins a pass over the second. Both names go out.
fn have_both_out(rt: &impl Abort, alloc: Global, index: &mut Index<TwoWorld>) {
    let _scanned = scan(rt, alloc, index, Version::First);
    let plan = Plan {
        files: 1,
        replace: 1,
        ..NO_PLAN
    };
    assert!(rt; begin_over(rt, alloc, index, Version::Second) == Begun::Begun(plan));
    let task = GroomTask {
        name: name_of(rt, alloc, Version::First),
        under: true,
    };
    assert!(rt; index.groom_take() == Some(task));
    assert!(rt; taken_text(rt, alloc, index.take()).as_str() == "/w/a 2, ");
}

/// Publishes the second version's row.
fn publish(rt: &impl Abort, alloc: Global, index: &mut Index<TwoWorld>) -> Published {
    index.publish(alloc, row_of(rt, alloc, Version::Second))
}

/// Judges the first version's name where the second stands.
fn judge(rt: &impl Abort, alloc: Global, index: &mut Index<TwoWorld>) -> Judged {
    let name = name_of(rt, alloc, Version::First);
    index.judge(alloc, &name, Seen::File(stamp_of(Version::Second)))
}

/// Both calls in this order. What was answered to the publishing and to the judging.
fn answers_in_order(
    rt: &impl Abort,
    alloc: Global,
    index: &mut Index<TwoWorld>,
    order: &Order,
) -> String {
    let (published, judged) = if order.judges_first {
        let judged = judge(rt, alloc, index);
        (publish(rt, alloc, index), judged)
    } else {
        let published = publish(rt, alloc, index);
        (published, judge(rt, alloc, index))
    };
    format!(in alloc; "{published:?}, {judged:?}").expect(rt, "memory")
}

/// The pass in this order, which ends with the second version's row. No name is left.
fn pass_in_order(rt: &impl Abort, alloc: Global, order: &Order) {
    let mut store = empty_store(alloc, None);
    let mut index = opened(alloc, &mut store).ok().expect(rt, "an index opens");
    have_both_out(rt, alloc, &mut index);
    let answers = answers_in_order(rt, alloc, &mut index, order);
    assert!(rt;
        answers.as_str() == order.answers,
        "{}: {answers}",
        order.shows
    );
    let (rows, standing) = ended(rt, alloc, &mut store, index);
    assert!(rt; rows.as_str() == "/w/a 2, ", "{}", order.shows);
    let left = Standing {
        log: order.log,
        rows: 1,
        ..NOTHING
    };
    assert!(rt; standing == left, "{}", order.shows);
}

#[test]
fn the_listed_version_stands_in_both_orders(rt: HostRuntime) {
    for order in ORDERS {
        pass_in_order(&rt, rt.alloc(), order);
    }
}
