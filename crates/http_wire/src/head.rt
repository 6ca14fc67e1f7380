//! Heads of requests, and why bytes are none.

/// The head of a request, over the bytes that the reader holds.
#[derive(Clone, Copy)]
pub struct Head<'a> {
    pub method: &'a [u8],
    /// As it was sent.
    pub target: &'a [u8],
    /// The minor version, 0 or 1.
    pub minor: u8,
    /// Whether the connection is to be closed after the reply.
    pub close: bool,
    /// Whether a body follows.
    pub has_body: bool,
    /// How many forwarders the request has passed.
    pub hops: u64,
}

/// Why bytes are no head that is served.
#[derive(Clone, Copy, Debug, PartialEq, Eq)]
pub enum HeadFault {
    /// Whatever follows these so many bytes, they begin no head.
    Bad { len: usize },
    /// As many bytes as a head may have hold no whole one.
    TooLong,
    /// There are more fields than a head may have.
    TooMany,
    /// The source ended within a head, after so many bytes.
    Cut { len: usize },
}

/// What the next bytes of a source are.
#[derive(Clone, Copy)]
pub enum HeadAnswer<'a> {
    /// A head.
    Head(Head<'a>),
    /// Nothing: the source ended before a head's first byte, or the reader has refused bytes
    /// before.
    Closed,
    /// No head.
    Refused(HeadFault),
    /// Not known: a read failed.
    ReadFault,
}
