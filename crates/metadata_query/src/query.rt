//! What is asked of the index.

use crate::pattern::Pattern;
use row_types::{BuildId, CanonPath};

/// Of which files the index is asked.
#[derive(PartialEq, Eq, Drop)]
pub enum MetaQuery {
    /// Those of a build-id.
    ById(BuildId),
    /// The one at a path.
    ByFile(CanonPath),
    /// Those whose whole path matches a pattern.
    ByGlob(Pattern),
}
