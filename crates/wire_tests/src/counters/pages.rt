//! What one thread counts.

use crate::counters::expected::{EACH_ROUTE_AND_STATUS, TWO_REQUESTS_AND_A_PASS, ZEROS};
use crate::counters::shares::{compare, count_often, one_drawn, request};
use dbgd_metrics::{Count, RouteName};

#[test]
fn the_page_after_two_requests_and_a_pass(rt: HostRuntime) {
    let (book, share) = one_drawn(&rt, rt.alloc(), 1);
    let share = count_often(&book, share, request(RouteName::Debuginfo, 200, 1016), 1);
    let share = count_often(&book, share, request(RouteName::Executable, 404, 10), 1);
    let pass = Count::Pass {
        added: 12,
        replaced: 0,
        dropped: 0,
    };
    let mut share = count_often(&book, share, pass, 1);
    compare(&rt, rt.alloc(), &book, &mut share, TWO_REQUESTS_AND_A_PASS);
}

#[test]
fn the_page_of_zeros_has_no_requests(rt: HostRuntime) {
    let (book, mut share) = one_drawn(&rt, rt.alloc(), 65);
    compare(&rt, rt.alloc(), &book, &mut share, ZEROS);
}

#[test]
fn lines_stand_by_route_and_status(rt: HostRuntime) {
    let (book, share) = one_drawn(&rt, rt.alloc(), 1);
    let share = count_often(&book, share, request(RouteName::Other, 507, 1), 8);
    let share = count_often(&book, share, request(RouteName::Other, 503, 1), 7);
    let share = count_often(&book, share, request(RouteName::Metrics, 502, 1), 6);
    let share = count_often(&book, share, request(RouteName::Section, 431, 1), 5);
    let share = count_often(&book, share, request(RouteName::Source, 405, 1), 4);
    let share = count_often(&book, share, request(RouteName::Executable, 404, 1), 3);
    let share = count_often(&book, share, request(RouteName::Debuginfo, 400, 1), 2);
    let share = count_often(&book, share, request(RouteName::Debuginfo, 200, 1), 1);
    let pass = Count::Pass {
        added: 3,
        replaced: 4,
        dropped: 5,
    };
    let mut share = count_often(&book, share, pass, 1);
    compare(&rt, rt.alloc(), &book, &mut share, EACH_ROUTE_AND_STATUS);
}
