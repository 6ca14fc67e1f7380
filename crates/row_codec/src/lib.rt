//! The spelling of a row in bytes, as a store keeps it. Nothing is opened or kept here.
#![tactic(auto)]

mod codes;
mod fault;
mod left;
mod parts;
mod read;
mod write;

pub use codes::{DEBUG_FLAG, ELF_TAG, EXEC_FLAG, PLAIN_TAG};
pub use fault::CodecFault;
pub use read::read_row;
pub use write::write_row;
