//! The directories and files that a line table's header lists. Their paths are joined in the crates
//! above, and line number programs aren't read. DWARF 2 to 5, section 6.2.4.
#![tactic(auto)]

mod ended;
mod entry;
mod fields;
mod head;
mod lists;
mod room;
mod table;

pub use entry::LineFile;
pub use room::ENTRIES_LIMIT;
pub use table::{LineTable, ReadTable, line_table, read_table};
