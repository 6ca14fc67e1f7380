//! How the passes of a server end.

/// How the passes between waits end.
#[derive(Clone, Copy, PartialEq, Eq)]
pub enum PassesEnd {
    /// The clock said Stop, and each line was said.
    Stopped,
    /// The clock said Stop, and the standard output had refused a line.
    OutFailed,
    /// Memory for a line was refused. The clock isn't asked any more then.
    OutOfMemory,
}
