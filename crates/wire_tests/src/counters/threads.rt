//! What two and four threads count.

ghost use Rattle.std.specs.Prelude.{◌≡◌, IsSome};
ghost use Rattle.std.specs.Thread.{IsSync};
ghost use Rattle.dbgd_metrics.specs.Counts.{HasReplyStatus};

use crate::counters::expected::FOUR_THREADS;
use crate::counters::shares::{compare, count_often, cut, drawn_pair, request};
use dbgd_metrics::{Book, Count, RouteName, Share};
use std::thread::{Threads, join};

/// Two threads count 10,000 requests each.
fn count_by_two<R: Threads + Sync>(
    rt: &R,
    book: &Book,
    first: Share,
    second: Share,
    what: Count,
) -> (Share, Share)
    requires first { first.book ≡ book.now.id }
    requires first_row { IsSome first.row }
    requires second { second.book ≡ book.now.id }
    requires second_row { IsSome second.row }
    requires status { HasReplyStatus what }
    ensures first { (result.0.book ≡ book.now.id) × IsSome result.0.row }
    ensures second { (result.1.book ≡ book.now.id) × IsSome result.1.row }
{
    join(
        rt,
        || count_often(book, first, what, 10_000),
        || count_often(book, second, what, 10_000),
    )
}

/// Four threads count 10,000 requests each, two of them the one and two the other.
fn count_by_four<R: Threads + Sync>(
    rt: &R,
    book: &Book,
    first: Share,
    second: Share,
    third: Share,
    fourth: Share,
) -> (Share, Share)
    requires first { first.book ≡ book.now.id }
    requires first_row { IsSome first.row }
    requires second { second.book ≡ book.now.id }
    requires second_row { IsSome second.row }
    requires third { third.book ≡ book.now.id }
    requires third_row { IsSome third.row }
    requires fourth { fourth.book ≡ book.now.id }
    requires fourth_row { IsSome fourth.row }
    ensures left { (result.0.book ≡ book.now.id) × IsSome result.0.row }
    ensures right { (result.1.book ≡ book.now.id) × IsSome result.1.row }
{
    let one = request(RouteName::Source, 200, 3);
    let other = request(RouteName::Source, 503, 4);
    let (left, right) = join(
        rt,
        || -> (Share, Share)
            requires { IsSync R.row × (first.book ≡ book.now.id) × IsSome first.row
                × (second.book ≡ book.now.id) × IsSome second.row × HasReplyStatus one }
            ensures { (result.0.book ≡ book.entry.now.id) × IsSome result.0.row }
        { count_by_two(rt, book, first, second, one) },
        || -> (Share, Share)
            requires { IsSync R.row × (third.book ≡ book.now.id) × IsSome third.row
                × (fourth.book ≡ book.now.id) × IsSome fourth.row × HasReplyStatus other }
            ensures { (result.0.book ≡ book.entry.now.id) × IsSome result.0.row }
        { count_by_two(rt, book, third, fourth, other) },
    );
    (left.0, right.0)
}

#[test]
fn the_totals_are_what_four_threads_counted(rt: HostRuntime) {
    let (book, share) = Book::make(rt.alloc(), 5).expect(&rt, "memory");
    let (left, right) = cut(&book, share);
    let (first, second) = drawn_pair(&rt, &book, left).expect(&rt, "two rows");
    let (third, fourth) = drawn_pair(&rt, &book, right).expect(&rt, "two rows");
    let (mut left, mut right) = count_by_four(&rt, &book, first, second, third, fourth);
    compare(&rt, rt.alloc(), &book, &mut left, FOUR_THREADS);
    compare(&rt, rt.alloc(), &book, &mut right, FOUR_THREADS);
}
