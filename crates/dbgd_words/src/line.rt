//! What a command line asks.

use crate::patterns::Patterns;
use federation::UpstreamAt;
use row_types::{BuildId, CanonPath};
use webapi_routes::Route;

/// A scan of folders into the store of a path, by 1 to 64 workers, of the files that the patterns
/// select.
#[derive(Drop)]
pub struct ScanLine<'a> {
    pub store: &'a str,
    pub workers: u64,
    pub patterns: Patterns<'a>,
    pub roots: Vec<CanonPath>,
}

/// A server of the index in the store of a path: 1 to 64 workers, a port from 1 on, seconds from one
/// scan of the folders to the next, up to 86,400, folders that sources are served from beside those that
/// are scanned, other servers that are asked for what isn't here, in order, and the patterns that select
/// which files are scanned.
#[derive(Drop)]
pub struct ServeLine<'a> {
    pub store: &'a str,
    pub workers: u64,
    pub port: u64,
    pub secs: u64,
    pub sources: Vec<CanonPath>,
    pub upstream: Vec<UpstreamAt>,
    pub patterns: Patterns<'a>,
    pub roots: Vec<CanonPath>,
}

/// A search for what a route names: first in the cache in a folder, then on other servers, in order.
#[derive(Drop)]
pub struct FindLine<'a> {
    pub cache: &'a str,
    pub route: Route,
    pub upstream: Vec<UpstreamAt>,
}

/// What a command line asks.
#[derive(Drop)]
pub enum Line<'a> {
    /// The identity of the file at a path.
    Ident { path: &'a str },
    /// The source paths of the file at a path.
    Sources { path: &'a str },
    /// The bytes of the section of a name, of the file at a path.
    Section { path: &'a str, name: &'a str },
    /// The rows of an id in the store of a path.
    Query { store: &'a str, id: BuildId },
    /// A scan of folders into a store.
    Scan(ScanLine<'a>),
    /// A server of the index in a store.
    Serve(ServeLine<'a>),
    /// A search for what a build-id names.
    Find(FindLine<'a>),
    /// A scan of generated files: the seed of their bytes, how many they are, and by how many
    /// workers.
    Trial { seed: u64, files: u64, workers: u64 },
    /// The help or the version of the program: the whole text that is its answer.
    Program { text: &'static str },
    /// The help or the version of a command: the whole text that is its answer.
    Help { text: String },
    /// No command, or one with other words than it takes.
    Usage,
}
