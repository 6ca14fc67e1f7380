//! The text of the page.
ghost use Rattle.std.specs.Prelude.{◌≡◌, ◌++◌, length, decimal, flat_map, IfOk, OnOk, codes};
ghost use Rattle.std.specs.String.{string_bytes};
ghost use Rattle.dbgd_metrics.specs.Numbers.{count_of_numbers, number_of_row, statuses};
ghost use Rattle.dbgd_metrics.specs.Page.{label, labels, number_line, line_unless_zero, metrics_text, request_line, route_lines, route_label};

use crate::number::{Number, RouteName, STATUSES};
use itoa::Buffer;
use std::alloc::{AllocError, Global};

/// The routes, in the order of the page.
const ROUTES: [RouteName; 6] = [
    RouteName::Debuginfo,
    RouteName::Executable,
    RouteName::Source,
    RouteName::Section,
    RouteName::Metrics,
    RouteName::Other,
];

// A route's label.
fn route_text(route: RouteName) -> &'static str
    ensures { result.now ≡ route_label route }
{
    match route {
        RouteName::Debuginfo => "debuginfo",
        RouteName::Executable => "executable",
        RouteName::Source => "source",
        RouteName::Section => "section",
        RouteName::Metrics => "metrics",
        RouteName::Other => "other",
    }
}

// Adds a line: what is counted, and its number.
fn push_line(text: &mut String, name: &str, number: u128) -> Result<(), AllocError>
    ensures { OnOk result (string_bytes text.new ≡ string_bytes text.old ++ number_line name.now number) }
{
    text.push_str(name)?;
    text.push_str(" ")?;
    text.push_str(Buffer::new().format(number))?;
    text.push_str("\n")
}

// Adds a label.
fn push_label(text: &mut String, name: &str, value: &str) -> Result<(), AllocError>
    ensures { OnOk result (string_bytes text.new ≡
        string_bytes text.old ++ label name.now value.now) }
{
    text.push_str(name)?;
    text.push_str("=\"")?;
    text.push_str(value)?;
    text.push_str("\"")
}

// Adds the labels of a route and a status.
fn push_labels(text: &mut String, route: &str, status: &str) -> Result<(), AllocError>
    ensures { OnOk result (string_bytes text.new ≡
        string_bytes text.old ++ labels route.now status.now) }
{
    text.push_str("{")?;
    push_label(text, "route", route)?;
    text.push_str(",")?;
    push_label(text, "status", status)?;
    text.push_str("}")
}

// Adds a line with labels, unless its number is 0.
fn push_series(
    text: &mut String,
    name: &str,
    route: &str,
    status: &str,
    number: u128,
) -> Result<(), AllocError>
    ensures { OnOk result (string_bytes text.new ≡
        string_bytes text.old ++ line_unless_zero (name.now ++ labels route.now status.now) number) }
{
    if number == 0 {
        return Ok(());
    }
    text.push_str(name)?;
    push_labels(text, route, status)?;
    push_line(text, "", number)
}

// One of the totals.
fn number_in(totals: &[u128], number: Number) -> u128
    requires { length totals.now ≡ count_of_numbers }
    ensures { result ≡ number_of_row totals.now number }
{
    totals[number.place() as usize]
}

// Adds the line of a route and a status, if there was such a request.
fn push_request(
    text: &mut String,
    totals: &[u128],
    route: RouteName,
    status: u16,
) -> Result<(), AllocError>
    requires { length totals.now ≡ count_of_numbers }
    ensures { OnOk result (string_bytes text.new ≡
        string_bytes text.old ++ request_line totals.now route status) }
{
    let requests = number_in(totals, Number::Requests { route, status });
    let mut digits = Buffer::new();
    let status = digits.format(status);
    push_series(
        text,
        "dbgd_requests_total",
        route_text(route),
        status,
        requests,
    )
}

// Adds the lines of a route with these statuses.
fn push_route(
    text: &mut String,
    totals: &[u128],
    route: RouteName,
    codes: &[u16],
) -> Result<(), AllocError>
    requires { length totals.now ≡ count_of_numbers }
    ensures { OnOk result (string_bytes text.new ≡
        string_bytes text.old ++ route_lines totals.now codes.now route) }
{
    for status in codes {
        push_request(text, totals, route, *status)?;
    }
    Ok(())
}

// Adds the lines of these routes.
fn push_routes(text: &mut String, totals: &[u128], routes: &[RouteName]) -> Result<(), AllocError>
    requires { length totals.now ≡ count_of_numbers }
    ensures { OnOk result (string_bytes text.new ≡
        string_bytes text.old ++ flat_map (route_lines totals.now statuses) routes.now) }
{
    for route in routes {
        push_route(text, totals, *route, &STATUSES)?;
    }
    Ok(())
}

// Adds the line of a number that isn't of requests.
fn push_total(
    text: &mut String,
    totals: &[u128],
    name: &str,
    number: Number,
) -> Result<(), AllocError>
    requires { length totals.now ≡ count_of_numbers }
    ensures { OnOk result (string_bytes text.new ≡
        string_bytes text.old ++ number_line name.now (number_of_row totals.now number)) }
{
    push_line(text, name, number_in(totals, number))
}

/// The page of these totals.
pub(crate) fn page(alloc: Global, totals: &[u128]) -> Result<String, AllocError>
    requires { length totals.now ≡ count_of_numbers }
    ensures { IfOk result (λ text. string_bytes text ≡ metrics_text totals.now) }
{
    let mut text = String::new(alloc);
    push_routes(&mut text, totals, &ROUTES)?;
    push_total(&mut text, totals, "dbgd_body_bytes_total", Number::Bytes)?;
    push_total(&mut text, totals, "dbgd_rows_added_total", Number::Added)?;
    push_total(
        &mut text,
        totals,
        "dbgd_rows_replaced_total",
        Number::Replaced,
    )?;
    push_total(
        &mut text,
        totals,
        "dbgd_rows_dropped_total",
        Number::Dropped,
    )?;
    push_total(&mut text, totals, "dbgd_passes_total", Number::Passes)?;
    Ok(text)
}
