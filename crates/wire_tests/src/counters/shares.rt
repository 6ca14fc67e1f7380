//! Tables, and shares that have a row.

ghost use Rattle.std.specs.Prelude.{◌≡◌, ◌≤◌, IsSome, IfSome, None};
ghost use Rattle.dbgd_metrics.specs.Counts.{HasReplyStatus};
ghost use Rattle.dbgd_metrics.specs.declared.count.Count.TheVariants.{Request};

use dbgd_metrics::{Book, Count, Drawn, RouteName, Share, ShareSplit};
use std::alloc::Global;
use std::process::Abort;
use std::sync::Wait;

/// Two shares of one.
pub fn cut(book: &Book, share: Share) -> (Share, Share)
    requires book { share.book ≡ book.now.id }
    requires no_row { share.row ≡ None }
    ensures first { (result.0.book ≡ book.now.id) × (result.0.row ≡ None) }
    ensures second { (result.1.book ≡ book.now.id) × (result.1.row ≡ None) }
{
    match book.split(share) {
        ShareSplit::Two(first, second) => (first, second),
        ShareSplit::OutOfMemory(_) => unreachable!(),
    }
}

/// The share with a row, if there was one left.
pub fn drawn<R: Wait>(rt: &R, book: &Book, share: Share) -> Option<Share>
    requires book { share.book ≡ book.now.id }
    requires no_row { share.row ≡ None }
    ensures { IfSome result (λ s. (s.book ≡ book.now.id) × IsSome s.row) }
{
    match book.draw(rt, share) {
        Drawn::Drawn(share) => Some(share),
        Drawn::Full(_) => None,
    }
}

/// Two shares with a row each, if there were two left.
pub fn drawn_pair<R: Wait>(rt: &R, book: &Book, share: Share) -> Option<(Share, Share)>
    requires book { share.book ≡ book.now.id }
    requires no_row { share.row ≡ None }
    ensures { IfSome result (λ s. (s.0.book ≡ book.now.id) × IsSome s.0.row
        × (s.1.book ≡ book.now.id) × IsSome s.1.row) }
{
    let (first, second) = cut(book, share);
    let first = drawn(rt, book, first)?;
    let second = drawn(rt, book, second)?;
    Some((first, second))
}

/// A table of so many rows, and a share that has one of them.
pub fn one_drawn<R: Abort + Wait>(rt: &R, alloc: Global, rows: u64) -> (Book, Share)
    requires { (1 ≤ rows) × (rows ≤ 65) }
    ensures { (result.1.book ≡ result.0.id) × IsSome result.1.row }
{
    let (book, share) = Book::make(alloc, rows).expect(rt, "memory");
    let share = drawn(rt, &book, share).expect(rt, "a row");
    (book, share)
}

/// A request to count.
pub fn request(route: RouteName, status: u16, bytes: u64) -> Count
    ensures { result ≡ Request route status bytes }
{
    Count::Request {
        route,
        status,
        bytes,
    }
}

/// Counts the same so many times.
pub fn count_often(book: &Book, mut share: Share, what: Count, times: u64) -> Share
    requires book { share.book ≡ book.now.id }
    requires row { IsSome share.row }
    requires status { HasReplyStatus what }
    ensures { (result.book ≡ book.now.id) × IsSome result.row }
{
    for _ in 0..times {
        book.count(&mut share, what);
    }
    share
}

/// The page is this.
pub fn compare(rt: &impl Abort, alloc: Global, book: &Book, share: &mut Share, wanted: &str)
    requires book { share.old.book ≡ book.now.id }
    requires row { IsSome share.old.row }
    ensures { (share.new.book ≡ book.now.id) × IsSome share.new.row }
{
    let page = book.text(alloc, share).expect(rt, "memory");
    assert!(rt; page.as_str() == wanted, "{page}");
}
