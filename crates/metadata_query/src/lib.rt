//! What a request for metadata asks: the query of its target (RFC 3986, section 3.4), read as one of three.
//! Answering it, and which targets are such, stand in the crates above.
#![tactic(auto)]

mod fault;
mod pattern;
mod query;
mod reading;
mod written;

pub use fault::MetaFault;
pub use pattern::{PATTERN_LIMIT, Pattern};
pub use query::MetaQuery;
pub use reading::parse_metadata;
