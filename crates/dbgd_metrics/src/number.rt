//! The numbers of a share by name, and their places in a row.
ghost use Rattle.std.specs.Prelude.{◌≡◌, ◌<◌};
ghost use Rattle.dbgd_metrics.specs.Numbers.{count_of_numbers, place_in, number_place, route_place, statuses};

/// How many numbers a row has.
pub const NUMBERS: u64 = 53;

/// The statuses of replies, in ascending order.
pub const STATUSES: [u16; 8] = [200, 400, 404, 405, 431, 502, 503, 507];

/// What a request asked for.
#[derive(Clone, Copy, PartialEq, Eq)]
pub enum RouteName {
    /// The debug file of a build-id.
    Debuginfo,
    /// The executable of a build-id.
    Executable,
    /// A source of a build-id.
    Source,
    /// A section of a build-id.
    Section,
    /// The counters.
    Metrics,
    /// Anything else.
    Other,
}

/// One number of a share.
#[derive(Clone, Copy, PartialEq, Eq)]
pub enum Number {
    /// Requests of this route that were replied to with this status.
    Requests {
        route: RouteName,
        /// One of `STATUSES`.
        status: u16,
    },
    /// Bytes of the bodies that were written.
    Bytes,
    /// Rows that passes added.
    Added,
    /// Rows that passes replaced.
    Replaced,
    /// Rows that passes dropped.
    Dropped,
    /// Passes.
    Passes,
}

// The route's place on the page.
fn route_place(route: RouteName) -> u64
    ensures value { result ≡ route_place route }
    ensures few { result < 6 }
{
    match route {
        RouteName::Debuginfo => 0,
        RouteName::Executable => 1,
        RouteName::Source => 2,
        RouteName::Section => 3,
        RouteName::Metrics => 4,
        RouteName::Other => 5,
    }
}

// The status's place among the statuses, or 8.
fn status_place(status: u16) -> u64
    ensures value { result ≡ place_in statuses status }
    ensures few { result < 9 }
{
    match status {
        200 => 0,
        400 => 1,
        404 => 2,
        405 => 3,
        431 => 4,
        502 => 5,
        503 => 6,
        507 => 7,
        _ => 8,
    }
}

impl Number {
    /// Its place in a row.
    pub(crate) fn place(self) -> u64
        ensures value { result ≡ number_place self }
        ensures few { result < count_of_numbers }
    {
        match self {
            Number::Requests { route, status } => 8 * route_place(route) + status_place(status),
            Number::Bytes => 48,
            Number::Added => 49,
            Number::Replaced => 50,
            Number::Dropped => 51,
            Number::Passes => 52,
        }
    }
}
