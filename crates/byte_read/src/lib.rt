//! Numbers, LEB128 numbers and texts that end in a 0, read from a slice. ELF gABI, chapter 4, "Data
//! Representation"; DWARF 5, section 7.6.
#![tactic(auto)]

mod cursor;
mod fault;
mod leb;
mod numbers;
mod places;
mod text;

pub use cursor::Cursor;
pub use fault::Fault;
pub use file_formats::Order;
pub use places::{text_at, u16_at, u32_at, u64_at};
