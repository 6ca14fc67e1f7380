//! Pictures of a file: parts of a text, whose bytes and places are counted by hand.

use file_picture::Picture;
use std::alloc::Global;
use std::process::Abort;

/// The file, 19 bytes.
pub const FILE: &[u8] = b"the bytes of a file";

/// Puts a part of a file into its picture, and says whether that was done: none of it was there.
pub fn puts(
    rt: &impl Abort,
    alloc: Global,
    picture: &mut Picture,
    file: &[u8],
    at: usize,
    end: usize,
) -> bool {
    let part = file.get(at..end).expect(rt, "a part of the file");
    let bytes = part.to_vec(alloc).expect(rt, "memory");
    let len = bytes.len() as u64;
    if at as u64 > picture.size() || len > picture.size() - at as u64 {
        return false;
    }
    match picture.missing(at as u64, len) {
        Some((from, run)) if from == at as u64 && run == len => {
            picture.add(at as u64, bytes).is_ok()
        }
        _ => false,
    }
}

/// The first run of a range that isn't there, where the range lies in the file.
pub fn gap(picture: &Picture, at: u64, len: u64) -> Option<(u64, u64)> {
    if at > picture.size() || len > picture.size() - at {
        return None;
    }
    picture.missing(at, len)
}

/// Puts what isn't there of a range of a file into its picture: at most three runs.
pub fn fill(rt: &impl Abort, alloc: Global, picture: &mut Picture, file: &[u8], range: (u64, u64)) {
    for _ in 0..3 {
        if let Some((from, run)) = gap(picture, range.0, range.1) {
            let end = from.saturating_add(run);
            let was_put = puts(rt, alloc, picture, file, from as usize, end as usize);
            assert!(rt; was_put, "{from}");
        }
    }
    assert!(rt; gap(picture, range.0, range.1).is_none());
}

/// Parts that touch: each comes at some place in the order.
static PARTS: [(usize, usize); 3] = [(2, 5), (5, 6), (6, 12)];

static ORDERS: [[usize; 3]; 6] = [
    [0, 1, 2],
    [0, 2, 1],
    [1, 0, 2],
    [1, 2, 0],
    [2, 0, 1],
    [2, 1, 0],
];

/// What a picture has once the parts are put into it in an order: how many bytes, the first run that
/// is missing behind the parts' begin, and whether the parts are lent as one.
fn joined(rt: &impl Abort, alloc: Global, order: &[usize]) -> (u64, Option<(u64, u64)>, bool) {
    let mut picture = Picture::new(alloc, FILE.len() as u64);
    for part in order {
        let (at, end) = PARTS.get(*part).expect(rt, "a part");
        assert!(rt;
            puts(rt, alloc, &mut picture, FILE, *at, *end),
            "a part in the order"
        );
        assert!(rt;
            !puts(rt, alloc, &mut picture, FILE, *at, *end),
            "the same once more"
        );
    }
    let whole = picture.slice(2, 10) == Some(b"e bytes of".as_slice());
    (picture.bytes(), gap(&picture, 2, 17), whole)
}

#[test]
fn parts_that_touch_are_lent_as_one_in_whatever_order_they_came(rt: HostRuntime) {
    for order in &ORDERS {
        let whole = joined(&rt, rt.alloc(), order);
        assert!(rt; whole == (10, Some((12, 7)), true), "{order:?}");
    }
}
