//! What a run is to be handed.

use federation::UpstreamAt;

/// What a run needs.
#[derive(Drop)]
pub struct Needs {
    /// The hands, of which the first walks and settles, the second looks for the files of rows, and
    /// the others read; of a server those in the second half serve the doors.
    pub hands: u64,
    /// The doors of a server, one for each worker.
    pub doors: u64,
    /// Their port; 0 without doors.
    pub port: u16,
    /// The rows of links: one for each worker of a server, and one for a search.
    pub rows: u64,
    /// The servers that are asked for what isn't here, in order: each row has a link to each of them.
    pub upstream: Vec<UpstreamAt>,
    /// The folder of the cache of a search.
    pub cache: Option<String>,
}
