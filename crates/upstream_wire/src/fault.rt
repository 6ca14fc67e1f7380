//! Why no response is read.

/// Why no response is read.
#[derive(Clone, Copy, Debug, PartialEq, Eq)]
pub enum ResponseFault {
    /// What the source held begins with none.
    NoResponse,
    /// A read failed.
    ReadFault,
    /// There was not enough memory.
    OutOfMemory,
}
