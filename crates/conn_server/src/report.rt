//! What is told of a connection.

use crate::reason::Reason;
use http_wire::HeadFault;
use webapi_routes::{Route, RouteFault};

/// What a request asks for, or the first reason why it asks for nothing. The variants stand in the
/// order in which they are looked for from the end: the head first, the route last.
#[derive(PartialEq, Eq, Drop)]
pub enum Asked {
    /// A route.
    Route(Route),
    /// The target is none of a route.
    NotRoute(RouteFault),
    /// The method is neither GET nor HEAD.
    Method,
    /// A body follows.
    Body,
    /// The bytes are no head.
    Head(HeadFault),
}

/// One request with its reply, which was written whole.
#[derive(PartialEq, Eq, Drop)]
pub struct Served {
    /// What was asked.
    pub asked: Asked,
    /// The length of the index's log as it was asked; 0 where it wasn't, or memory was refused.
    pub gen_: u64,
    /// The status of the reply.
    pub status: u16,
    /// Why it is that.
    pub reason: Reason,
    /// How many bytes of a body were written.
    pub len: u64,
}

/// Why a file that is a reply's body wasn't sent whole.
#[derive(Clone, Copy, PartialEq, Eq)]
pub enum BodyCause {
    /// A read of it failed, and the hand's count of faults rose.
    ReadFault,
    /// A byte isn't the one that was checked, the first one that isn't.
    Changed {
        /// Where it stands, in bytes from the file's start.
        at: u64,
        /// The byte that was checked.
        checked: u8,
        /// The one that was read in its place.
        seen: u8,
    },
}

/// How a connection ended.
#[derive(Clone, Copy, PartialEq, Eq)]
pub enum ConnEnd {
    /// The source ended before a head's first byte, or a reply closed.
    Closed,
    /// The source ended within a head.
    Cut,
    /// Bytes that are no head were answered.
    Refused,
    /// As many requests as a connection has were answered.
    Limit,
    /// A read failed.
    ReadFault,
    /// A write failed.
    WriteFault,
    /// A file that is the body of a reply couldn't be read as it was checked. What stands in front of
    /// that place was written, and nothing behind it.
    BodyFault(BodyCause),
    /// There was not enough memory.
    OutOfMemory,
}

/// What is told of a connection.
#[derive(Drop)]
pub struct ConnReport {
    /// The requests that were answered, in order.
    pub served: Vec<Served>,
    /// How it ended.
    pub end: ConnEnd,
}
