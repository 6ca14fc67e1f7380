//! How a query ends.

use index_state::OpenFault;

/// How a query ends.
#[derive(Drop)]
pub enum QueryEnd {
    /// The store could not be opened, or no index on it.
    Refused(OpenFault),
    /// The lines of the rows with the id, by path; empty where there is none.
    Read(Vec<u8>),
    /// The index was opened, but memory was refused as the lines were made.
    OutOfMemory,
}
