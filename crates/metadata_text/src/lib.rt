//! The text of what is told of files by their build-ids, paths and classes: a JSON object (RFC 8259) without
//! blanks. Which files were found, and what is asked, stand in the crates above.
#![tactic(auto)]

mod found;
mod text;

pub use found::{FileClass, FoundFile};
pub use text::metadata_text;
