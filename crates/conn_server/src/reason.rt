//! Why a request gets the reply that it gets.

ghost use Rattle.std.specs.Prelude.{◌≡◌};
ghost use Rattle.dbgd_metrics.specs.Numbers.{IsCountedStatus};
ghost use Rattle.http_wire.specs.Reply.{IsStatus};
ghost use Rattle.conn_server.specs.Replies.{reason_of_head, reason_of_route, row_of, status_of};

use http_wire::HeadFault;
use webapi_routes::RouteFault;

/// Why a request gets its reply.
#[derive(Clone, Copy, PartialEq, Eq)]
pub enum Reason {
    /// A file here passed.
    Local,
    /// No file here passed, and the answer of a link did.
    Upstream,
    /// The counters are asked for.
    Metrics,
    /// The bytes are no head.
    BadHead,
    /// The head has more fields than are served, or is too long.
    TooLarge,
    /// The method isn't served.
    Method,
    /// A body follows.
    Body,
    /// The target has an escape without two digits, or spells no text.
    BadEscape,
    /// The target is none of a route.
    NoRoute,
    /// What stands for the build-id is none.
    BadId,
    /// The source's path is too long.
    BadPath,
    /// Nothing passed, and the request came through too many forwarders for the links to be asked.
    HopLimit,
    /// Nothing passed.
    NotFound,
    /// Nothing passed, and a link failed.
    UpstreamFault,
    /// Nothing passed, and a load failed.
    ReadFault,
    /// There was not enough memory.
    OutOfMemory,
}

/// What a reason makes of its reply.
#[derive(Clone, Copy)]
pub(crate) struct ReasonRow {
    /// The status (RFC 9110, section 15).
    pub status: u16,
    /// Whether the body is told to be a text.
    pub text: bool,
    /// The line that is the body. What passed and the counters have none.
    pub line: &'static [u8],
}

impl Reason {
    /// The status of the reply (RFC 9110, section 15).
    pub fn status(self) -> u16
        ensures value { result ≡ status_of self }
        ensures known { IsStatus result }
        ensures counted { IsCountedStatus result }
    {
        self.row().status
    }

    /// The row of the reason.
    pub(crate) fn row(self) -> ReasonRow
        ensures status { result.status ≡ (row_of self).status }
        ensures text { result.text ≡ (row_of self).text }
        ensures line { result.line.now ≡ (row_of self).line }
        ensures known { IsStatus result.status }
        ensures counted { IsCountedStatus result.status }
    {
        let (status, text, line): (u16, bool, &'static [u8]) = match self {
            Reason::Local => (200, false, b""),
            Reason::Upstream => (200, false, b""),
            Reason::Metrics => (200, true, b""),
            Reason::BadHead => (400, true, b"bad request\n"),
            Reason::TooLarge => (431, true, b"too large\n"),
            Reason::Method => (405, true, b"bad method\n"),
            Reason::Body => (400, true, b"request body\n"),
            Reason::BadEscape => (400, true, b"bad escape\n"),
            Reason::NoRoute => (404, true, b"no route\n"),
            Reason::BadId => (400, true, b"bad build-id\n"),
            Reason::BadPath => (400, true, b"bad path\n"),
            Reason::HopLimit => (404, true, b"hop limit\n"),
            Reason::NotFound => (404, true, b"not found\n"),
            Reason::UpstreamFault => (502, true, b"upstream fault\n"),
            Reason::ReadFault => (503, true, b"read fault\n"),
            Reason::OutOfMemory => (507, true, b"out of memory\n"),
        };
        ReasonRow { status, text, line }
    }
}

/// Why a target that asks for no route gets its reply.
pub(crate) fn reason_of_route(fault: RouteFault) -> Reason
    ensures { result ≡ reason_of_route fault }
{
    match fault {
        RouteFault::BadEscape => Reason::BadEscape,
        RouteFault::NoRoute => Reason::NoRoute,
        RouteFault::BadId => Reason::BadId,
        RouteFault::BadPath => Reason::BadPath,
        RouteFault::OutOfMemory => Reason::OutOfMemory,
    }
}

/// Why bytes that are no head get their reply. Bytes that were cut off get none.
pub(crate) fn reason_of_head(fault: HeadFault) -> Option<Reason>
    ensures { result ≡ reason_of_head fault }
{
    match fault {
        HeadFault::Bad { len: _ } => Some(Reason::BadHead),
        HeadFault::TooLong | HeadFault::TooMany => Some(Reason::TooLarge),
        HeadFault::Cut { len: _ } => None,
    }
}
