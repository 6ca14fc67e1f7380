//! Passes by two tokens of one lock.

ghost use Rattle.std.specs.Prelude.{◌≡◌, []};

use crate::passes::beside::many;
use crate::passes::shared::{held_rows, pass, pass_by};
use crate::rig::{FOLDERS, ROWS};
use path_scope::AllPaths;
use sample_index::{Unspared, cut, empty_shared};
use std::thread::join;
use tree_trait::NoGate;

/// Whether a pass ended whole with all twelve files, or was left undone for want of memory.
fn is_whole_or_undone(end: &str) -> bool {
    end.starts_with("12 ") || end == "no memory"
}

// What the other token began in between may make a pass begin anew, or leave it for want of memory.
#[test]
fn two_tokens_pass_side_by_side(rt: HostRuntime) {
    let alloc = rt.alloc();
    let Unspared { lock, seat } = empty_shared(alloc, None).expect(&rt, "an index");
    let (one, two) = cut(&lock, seat).expect(&rt, "memory");
    let (four, three) = (many(&rt, alloc, 4), many(&rt, alloc, 3));
    let ((one, first), (two, second)) = join(
        &rt,
        || pass_by(
            &rt,
            alloc,
            &lock,
            one,
            four,
            &FOLDERS,
            &mut AllPaths,
            &NoGate,
        ),
        || pass_by(
            &rt,
            alloc,
            &lock,
            two,
            three,
            &FOLDERS,
            &mut AllPaths,
            &NoGate,
        ),
    );
    assert!(rt; is_whole_or_undone(first.as_str()), "{first}");
    assert!(rt; is_whole_or_undone(second.as_str()), "{second}");
    let index = Unspared {
        seat: lock.join(one, two),
        lock,
    };
    let (index, end) = pass(
        &rt,
        alloc,
        index,
        many(&rt, alloc, 2),
        &FOLDERS,
        &mut AllPaths,
        &NoGate,
    );
    assert!(rt; end.starts_with("12 "), "{end}");
    let (_, rows) = held_rows(&rt, alloc, index);
    assert!(rt; rows.as_str() == ROWS);
}

#[test]
fn another_token_sees_what_a_pass_left(rt: HostRuntime) {
    let alloc = rt.alloc();
    let Unspared { lock, seat } = empty_shared(alloc, None).expect(&rt, "an index");
    let (own, other) = cut(&lock, seat).expect(&rt, "memory");
    let (_, end) = pass_by(
        &rt,
        alloc,
        &lock,
        own,
        many(&rt, alloc, 3),
        &FOLDERS,
        &mut AllPaths,
        &NoGate,
    );
    assert!(rt; end.as_str() == "12 12 0 0 0 4 4", "{end}");
    let held = lock.enter(&rt, other);
    let log = held.value().standing().log;
    let _other = lock.leave(held);
    assert!(rt; log == 12);
}
